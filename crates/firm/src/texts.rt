// The fixed texts of the firm's pages. Each is a type with an impl of its own: a text is no const parameter, and one generic type
// would ask a marker with an impl for each text as well.
ghost use Rattle.std.specs.Prelude.{codes, refl};

use segments::as_path::AsPath;

#[derive(Clone, Copy)]
pub struct Parcel;

impl AsPath for Parcel {
    ghost text = { λ _. codes "parcel" };

    ghost abides = { λ _. refl };

    fn as_path(&self) -> &[u8] {
        b"parcel"
    }
}

#[derive(Clone, Copy)]
pub struct Plan;

impl AsPath for Plan {
    ghost text = { λ _. codes "plan" };

    ghost abides = { λ _. refl };

    fn as_path(&self) -> &[u8] {
        b"plan"
    }
}

#[derive(Clone, Copy)]
pub struct Job;

impl AsPath for Job {
    ghost text = { λ _. codes "job" };

    ghost abides = { λ _. refl };

    fn as_path(&self) -> &[u8] {
        b"job"
    }
}

// What routes answer on links of every sort, and what is refused.

mod firm;
mod given;
mod handed_over;
mod kept_lists;
mod lines;
mod links;
mod lone_entries;
mod nested_routes;
mod outcome;
mod own_match;
mod parents;
mod paths;
mod plats;
mod refusals;
mod slashes;
mod splats;

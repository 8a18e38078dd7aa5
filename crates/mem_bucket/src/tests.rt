//! One table of operations on each kind of bucket, scripts of faults, and lanes at once.
mod bodies;
mod four_lanes;
mod lanes;
mod operations;
mod scripts;
mod table;

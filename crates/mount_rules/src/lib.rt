//! The definition of the mount, which every layer of the mount cites: what it holds, and the rules of each request. It
//! has definitions alone; what is proved of them stands in `mount_laws`.
#![tactic(auto)]

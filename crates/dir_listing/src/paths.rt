//! The law that paths name objects.
ghost use Rattle.dir_listing.specs.PathNames.{PathsNameObjects};

/// States that each path is the name of an object, and so is the path with a slash. It does nothing.
pub fn paths_name_objects()
    ensures { PathsNameObjects }
{}

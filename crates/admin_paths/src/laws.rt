// What holds of paths.
ghost use Rattle.admin_paths.specs.Found.{PathsAreFound};

/// A path is found exactly where its literals are in their places, with one segment that has a byte for each parameter.
pub fn a_path_is_found_by_its_literals()
    ensures { PathsAreFound }
{}

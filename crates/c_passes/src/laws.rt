//! What holds of what passes make.
ghost use Rattle.c_passes.specs.Standing.{PassedFilesHaveOutside, PassedFilesRefuse, PassedFilesStand};

/// A file that is made of another one by passes stands for it: it has the same struct, and as many
/// functions with the same results; it runs as the other file does, and refuses what that refuses.
/// Where the other one is the file of well-formed code, it refuses what is to be refused.
/// Where the other one is the file of code, the functions that are called from outside have the
/// results and the parameters with which a header declares them.
pub fn passed_files_stand_for_it()
    ensures stand { PassedFilesStand }
    ensures refuse { PassedFilesRefuse }
    ensures outside { PassedFilesHaveOutside }
{}

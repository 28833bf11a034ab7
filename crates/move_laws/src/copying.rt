ghost use Rattle.move_laws.specs.Copying.{CopyGoesOn, CopyIsCut, FineResume, FinePoints, FinePointStays, CopyBegins, CopySteps, CopyEnds, CopyWaits, CopyFramesStand, InsideHeld};

/// What is still to come of a copy follows on the actions before its frames.
pub fn copy_goes_on()
    ensures { CopyGoesOn }
{}

/// Wherever a copy is cut in two, it hasn't begun, is over, or has such frames.
pub fn copy_is_cut()
    ensures { CopyIsCut }
{}

/// From a point within a copy on, what is still to come follows on the actions so far.
pub fn fine_resume()
    ensures { FineResume }
{}

/// Behind each number of actions there is such a point, above a rest.
pub fn fine_points()
    ensures { FinePoints }
{}

/// It stays one while tokens come.
pub fn fine_point_stays()
    ensures { FinePointStays }
{}

/// How a copy begins.
pub fn copy_begins()
    ensures { CopyBegins }
{}

/// How it goes on with the next child.
pub fn copy_steps()
    ensures { CopySteps }
{}

/// How it ends.
pub fn copy_ends()
    ensures { CopyEnds }
{}

/// With no next child yet, no action is left, and the run isn't done.
pub fn copy_waits()
    ensures { CopyWaits }
{}

/// What the frames of a copy stand on.
pub fn copy_frames_stand()
    ensures { CopyFramesStand }
{}

/// Over the held nodes the nodes within a copy have the children that they have over the tree.
pub fn inside_held()
    ensures { InsideHeld }
{}

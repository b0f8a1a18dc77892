// What holds of all input lines.
ghost use Rattle.recordings.specs.Laws.{LinesStand, LinesReadBack};
ghost use Rattle.recordings.specs.Split.{LinesCut};

// The line of any string of up to 511 octets, in either case of its digits, reads back as exactly that direction and string, and every other
// line is unread; and an input is cut into its lines, in whatever pieces it comes.
pub fn lines_stand()
    ensures stand { LinesStand }
    ensures back { LinesReadBack }
    ensures cut { LinesCut }
{}

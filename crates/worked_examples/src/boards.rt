//! The boards of the worked examples.

/// One box next to its goal.
pub(crate) const ONE: &[u8] = b"#####\n#@$.#\n#####\n";

/// A box in a corner room, with its goal at the other corner.
pub(crate) const CORNER: &[u8] = b"#####\n#.  #\n# $ #\n#  @#\n#####\n";

/// Two boxes, one on each side of the player.
pub(crate) const TWO_ENDS: &[u8] = b"#######\n#.$@$.#\n#######\n";

/// A box that comes back to its first square, with the player on its other side.
pub(crate) const THERE_AND_BACK: &[u8] = b"8#|4#3-#|#.@$3-#|4#3-#|8#\n";

/// A room with three boxes. An independent search, in another language, counted its layers: 1, 9, 34, 87, 162, 221,
/// 233, 187 and 119 positions. One position of the last layer is solved.
pub(crate) const ROOM: &[u8] =
    b"#########\n#@      #\n# $ $ $ #\n#       #\n#.  .  .#\n#########\n";

/// A room with five boxes. An independent search counted its layers: 1, 18, 141, 670, 2219 and 5533 positions. One
/// position of the last layer is solved.
pub(crate) const LARGE_ROOM: &[u8] =
    b"##########\n#@ .     #\n#  * $ * #\n#    .$  #\n# $      #\n# .      #\n##########\n";

/// Nine lines with two boards, a lawful one and an open one.
pub(crate) const TWO: &[u8] = b"; one\n#####\n#@$.#\n#####\n\n####\n#@$.\n####\nTitle: two";

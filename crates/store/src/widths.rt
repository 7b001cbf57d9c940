//! The widths of keys. An enum of tables has two variants for each of these greatest numbers of boxes, and two for more
//! boxes: one with one byte a square (`Low`), and one with two.

// The greatest numbers of boxes of the widths, except of the widest one.
pub(crate) const NARROW: usize = 3;

pub(crate) const MIDDLE: usize = 11;

pub(crate) const HALF: usize = 19;

pub(crate) const WIDE: usize = 27;

pub(crate) const BROAD: usize = 35;

// Makes a call on a table, whatever the width of its keys.
macro_rules! in_each {
    ($tables:ident, $value:expr, $table:ident => $call:expr) => {
        match $value {
            $tables::NarrowLow($table) => $call,
            $tables::MiddleLow($table) => $call,
            $tables::HalfLow($table) => $call,
            $tables::WideLow($table) => $call,
            $tables::BroadLow($table) => $call,
            $tables::WidestLow($table) => $call,
            $tables::Narrow($table) => $call,
            $tables::Middle($table) => $call,
            $tables::Half($table) => $call,
            $tables::Wide($table) => $call,
            $tables::Broad($table) => $call,
            $tables::Widest($table) => $call,
        }
    };
}

pub(crate) use in_each;

// The table for positions with at most `$boxes` boxes on a grid of `$squares` squares.
macro_rules! of_width {
    ($tables:ident, $boxes:expr, $squares:expr, $table:expr) => {
        if $squares <= $crate::key::BYTE_SQUARES {
            if $boxes <= $crate::widths::NARROW {
                $tables::NarrowLow($table)
            } else if $boxes <= $crate::widths::MIDDLE {
                $tables::MiddleLow($table)
            } else if $boxes <= $crate::widths::HALF {
                $tables::HalfLow($table)
            } else if $boxes <= $crate::widths::WIDE {
                $tables::WideLow($table)
            } else if $boxes <= $crate::widths::BROAD {
                $tables::BroadLow($table)
            } else {
                $tables::WidestLow($table)
            }
        } else {
            if $boxes <= $crate::widths::NARROW {
                $tables::Narrow($table)
            } else if $boxes <= $crate::widths::MIDDLE {
                $tables::Middle($table)
            } else if $boxes <= $crate::widths::HALF {
                $tables::Half($table)
            } else if $boxes <= $crate::widths::WIDE {
                $tables::Wide($table)
            } else if $boxes <= $crate::widths::BROAD {
                $tables::Broad($table)
            } else {
                $tables::Widest($table)
            }
        }
    };
}

pub(crate) use of_width;

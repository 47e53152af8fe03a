//! The rule of the table, and what its steps tell.

use crate::deed::Track;
use atomic_table::{Join, Play, Split, TableRule};
use ir_image::Image;
use std::collections::LinkedList;

/// The words are the objects after the object steps in the views, taken in some order.
pub struct Law;

impl TableRule<(), LinkedList<Track>, Image> for Law {
    ghost use Rattle.ir_crew.specs.Rule.{KeptByRule, crew_tracks_from};
    ghost use Rattle.std.specs.Prelude.{length};

    ghost holds = { KeptByRule };

    ghost first = { λ g. crew_tracks_from 0 (length g.entries) };
}

/// A look at an object's word.
pub struct Look;

impl Play<(), LinkedList<Track>> for Look {
    ghost use Rattle.ir_crew.specs.Plays.{looked_in_play};

    ghost then = { looked_in_play };
}

/// An entry for reading, if the word is the one expected.
pub struct EnterRead;

impl Play<(), LinkedList<Track>> for EnterRead {
    ghost use Rattle.ir_crew.specs.Plays.{entered_read};

    ghost then = { entered_read };
}

/// An entry for writing, if the word is the one expected.
pub struct EnterWrite;

impl Play<(), LinkedList<Track>> for EnterWrite {
    ghost use Rattle.ir_crew.specs.Plays.{entered_write};

    ghost then = { entered_write };
}

/// A try to enter for writing, which enters if the word is the one expected.
pub struct TryWrite;

impl Play<(), LinkedList<Track>> for TryWrite {
    ghost use Rattle.ir_crew.specs.Plays.{entered_by_try};

    ghost then = { entered_by_try };
}

/// A reader's leave.
pub struct LeaveRead;

impl Play<(), LinkedList<Track>> for LeaveRead {
    ghost use Rattle.ir_crew.specs.Plays.{left_reading};

    ghost then = { left_reading };
}

/// A writer's leave.
pub struct LeaveWrite;

impl Play<(), LinkedList<Track>> for LeaveWrite {
    ghost use Rattle.ir_crew.specs.Plays.{left_writing};

    ghost then = { left_writing };
}

/// A word that is read.
pub struct Get;

impl Play<(), LinkedList<Track>> for Get {
    ghost use Rattle.ir_crew.specs.Plays.{got};

    ghost then = { got };
}

/// A word that is written.
pub struct Put;

impl Play<(), LinkedList<Track>> for Put {
    ghost use Rattle.ir_crew.specs.Plays.{wrote};

    ghost then = { wrote };
}

/// Cuts off the first thread.
pub struct OffFirst;

impl Split<LinkedList<Track>> for OffFirst {
    ghost use Rattle.std.specs.Prelude.{drop, take};

    ghost left = { drop 1 };

    ghost right = { take 1 };
}

/// The threads of both.
pub struct Both;

impl Join<LinkedList<Track>> for Both {
    ghost use Rattle.std.specs.Prelude.{[], ◌++◌};

    ghost both = { λ v w. v ++ w };

    ghost spent = { [] };
}

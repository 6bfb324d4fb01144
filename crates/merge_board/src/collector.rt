//! How outcomes are collected.

ghost use Rattle.std.specs.Prelude.{◌≡◌, ◌+◌, IfSome, IfNone};
ghost use Rattle.merge_board.specs.Parts.{IsCollectorIn, IsCollectorEndIn, collector_parts, collector_end_parts};
ghost use Rattle.merge_board.specs.Parts.{collected_by, collected_in_all, empty_looks_of, Grew};

use crate::log::Collects;
use crate::parts::{Collector, CollectorEnd, Room};
use crate::posted_out::PostedOut;
use std::sync::Wait;

impl Collector {
    /// The outcome that waited longest, or nothing where none waited. It takes no memory.
    pub fn take<R: Wait>(&mut self, rt: &R, room: &Room) -> Option<PostedOut>
        requires { IsCollectorIn room.now self.old }
        ensures room { IsCollectorIn room.now self.new }
        ensures parts { collector_parts self.new ≡ collector_parts self.old }
        ensures out { IfSome result (λ out. Grew (collected_by self.old) out (collected_by self.new)) }
        ensures none { IfNone result (collected_by self.new ≡ collected_by self.old) }
        ensures kept { IfSome result (λ _. empty_looks_of self.new ≡ empty_looks_of self.old) }
        ensures looked { IfNone result (empty_looks_of self.new ≡ empty_looks_of self.old + 1) }
    {
        match room.outs.pop::<Collects, R>(rt, &mut self.seat) {
            Some(sent) => Some(sent.out),
            None => None,
        }
    }

    /// Ends the collector. It waits for nobody.
    pub fn finish(self) -> CollectorEnd
        ensures room { (room : Room) → IsCollectorIn room self → IsCollectorEndIn room result }
        ensures parts { collector_end_parts result ≡ collector_parts self }
        ensures collected { collected_in_all result ≡ collected_by self }
    {
        let Collector { seat } = self;
        CollectorEnd { seat }
    }
}

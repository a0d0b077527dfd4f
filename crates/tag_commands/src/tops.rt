//! Counts of top tags.

ghost use Rattle.std.specs.Prelude.{◌≡◌, ◌+◌, ◌<◌, ◌^◌};
ghost use Rattle.tag_commands.specs.Counting.{after_event, no_tops, with_tag};

use dmap_stream::Event;

/// How many lists are open, and how many top tags have ended.
#[derive(Clone, Copy)]
pub struct Tops {
    pub depth: u64,
    pub ended: u64,
}

impl Tops {
    /// Returns the counts before the first tag.
    pub fn new() -> Tops
        ensures { result ≡ no_tops }
    {
        Tops { depth: 0, ended: 0 }
    }

    /// Counts an event.
    #[inline(always)]
    pub fn count(&mut self, event: Event)
        requires { self.old.depth + self.old.ended < 2 ^ 63 }
        ensures { self.new ≡ after_event self.old event }
    {
        match event {
            Event::Open { .. } => self.depth += 1,
            Event::Leaf { .. } => self.end_tag(),
            Event::Close { .. } => {
                self.depth = self.depth.saturating_sub(1);
                self.end_tag();
            }
        }
    }

    /// Counts the end of a tag in the open lists.
    #[inline(always)]
    fn end_tag(&mut self)
        requires { self.old.ended < 2 ^ 63 }
        ensures { self.new ≡ with_tag self.old.depth self.old.ended }
    {
        if self.depth == 0 {
            self.ended += 1;
        }
    }
}

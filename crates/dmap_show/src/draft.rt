//! Tags to which lines are still being added.

ghost use Rattle.std.specs.Prelude.{◌≡◌, ◌≤◌, [], ◌∷◌, length, option_map, IfOk, OnOk, OnErr, IfNone, IfSome};
ghost use Rattle.dmap_show.specs.Drafts.{closed_in, closed, parent_in, State, lowered, is_group, with_tag, fitted, taken};

use code_table::CodeTable;
use dmap_tags::{Code, Tag, Tags, Value};
use std::alloc::{AllocError, Global};
use std::marker::Model;

/// The most levels of a tag.
const MOST_LEVELS: u64 = 32;

/// A list to which further lines may add.
#[derive(Drop)]
pub(crate) struct OpenList {
    pub(crate) code: Code,
    /// The members before it in the list around it.
    pub(crate) before: Tags,
}

impl OpenList {
    /// Returns the members of the list around it, with this list, closed, as the last.
    fn closed(self, here: Tags) -> Result<Tags, AllocError>
        ensures { IfOk result (λ tags. tags ≡ closed_in self here) }
    {
        let mut tags = self.before;
        tags.push(Tag {
            code: self.code,
            value: Value::List(here),
        })?;
        Ok(tags)
    }
}

/// The lists around a line, which contracts see from the innermost to the outermost.
#[derive(Drop)]
pub(crate) struct Around {
    outermost_first: Vec<OpenList>,
}

impl Model for Around {
    ghost use Rattle.std.specs.Prelude.{List, reverse};
    ghost use Rattle.std.specs.Coded.{codes};
    ghost use Rattle.dmap_tags.specs.Cells.{tree_coded};
    ghost use Rattle.dmap_show.specs.declared.draft.OpenList.{OpenList};

    ghost Value = { List OpenList };

    ghost coded = { Prim.hlevel (codes, tree_coded) };

    ghost view = { λ a. reverse a.outermost_first.items };
}

impl Around {
    fn new(alloc: Global) -> Around
        ensures { result ≡ [] }
    {
        Around {
            outermost_first: Vec::new(alloc),
        }
    }

    fn len(&self) -> u64
        ensures { result ≡ length self.now }
    {
        self.outermost_first.len() as u64
    }

    fn push(&mut self, list: OpenList) -> Result<(), AllocError>
        ensures ok { OnOk result (self.new ≡ list ∷ self.old) }
    {
        self.outermost_first.push(list)?;
        Ok(())
    }

    /// Returns the code of the innermost list.
    fn parent(&self) -> Option<Code>
        ensures { result ≡ parent_in self.now }
    {
        match self.outermost_first.last() {
            Some(list) => Some(list.code),
            None => None,
        }
    }

    /// Removes the innermost list if more than `level` lists are open.
    fn pop_above(&mut self, level: u64) -> Option<OpenList>
        ensures none { IfNone result ((length self.old ≤ level) × (self.new ≡ self.old)) }
        ensures some { IfSome result (λ o. (self.old ≡ o ∷ self.new) × (level ≤ length self.new)) }
    {
        if self.len() > level {
            self.outermost_first.pop()
        } else {
            None
        }
    }
}

/// Tags of which the last may still get members.
#[derive(Drop)]
pub(crate) struct Draft {
    pub(crate) around: Around,
    pub(crate) here: Tags,
}

impl Draft {
    pub(crate) fn new(alloc: Global) -> Draft
        ensures { result ≡ record { around = []; here = [] } }
    {
        Draft {
            around: Around::new(alloc),
            here: Tags::new(alloc),
        }
    }

    /// Returns all tags, with each list closed.
    pub(crate) fn finished(self) -> Result<Tags, AllocError>
        ensures { IfOk result (λ tags. tags ≡ closed self.around self.here) }
    {
        let Draft {
            mut around,
            mut here,
        } = self;
        while let Some(list) = around.pop_above(0) {
            here = list.closed(here)?;
        }
        Ok(here)
    }

    /// Closes lists until no more than `level` are open.
    #[tactic(auto, using(crate::proofs::Zipper::lowered_low))]
    fn lowered(self, level: u64) -> Result<Draft, AllocError>
        ensures { IfOk result (λ draft. record { around = draft.around; here = draft.here }
            ≡ lowered level self.around self.here) }
    {
        let Draft {
            mut around,
            mut here,
        } = self;
        while let Some(list) = around.pop_above(level) {
            here = list.closed(here)?;
        }
        Ok(Draft { around, here })
    }

    /// Adds a tag. A list opens.
    fn with_tag(self, alloc: Global, tag: Tag) -> Result<Draft, AllocError>
        ensures { IfOk result (λ draft. record { around = draft.around; here = draft.here }
            ≡ with_tag tag (record { around = self.around; here = self.here })) }
    {
        let Draft {
            mut around,
            mut here,
        } = self;
        if is_group(&tag) {
            around.push(OpenList {
                code: tag.code,
                before: here,
            })?;
            return Ok(Draft {
                around,
                here: Tags::new(alloc),
            });
        }
        here.push(tag)?;
        Ok(Draft { around, here })
    }

    /// Adds the tag of a line of that level, unless no such tag may be there.
    pub(crate) fn taken(
        self,
        alloc: Global,
        table: &CodeTable,
        level: u64,
        tag: Tag,
    ) -> Result<Option<Draft>, AllocError>
        ensures { IfOk result (λ draft. option_map
            (λ d. record { around = d.around; here = d.here }) draft
            ≡ taken table.now level tag self.around self.here) }
    {
        if level > self.around.len() || level >= MOST_LEVELS {
            return Ok(None);
        }
        self.lowered(level)?.fitted(alloc, table, tag)
    }

    fn fitted(self, alloc: Global, table: &CodeTable, tag: Tag) -> Result<Option<Draft>, AllocError>
        ensures { IfOk result (λ draft. option_map
            (λ d. record { around = d.around; here = d.here }) draft
            ≡ fitted table.now tag (record { around = self.around; here = self.here })) }
    {
        if !table.fits(self.around.parent(), &tag) {
            return Ok(None);
        }
        Ok(Some(self.with_tag(alloc, tag)?))
    }
}

/// Returns whether a tag is a list.
fn is_group(tag: &Tag) -> bool
    ensures { result ≡ is_group tag.now }
{
    match &tag.value {
        Value::U8(_) | Value::I8(_) | Value::U16(_) | Value::I16(_) => false,
        Value::U32(_) | Value::I32(_) | Value::U64(_) | Value::I64(_) => false,
        Value::Text(_) | Value::Date(_) | Value::Version(_) | Value::Opaque(_) => false,
        Value::List(_) => true,
    }
}

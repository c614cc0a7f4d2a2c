//! The commands that words make, a row of their table each.
ghost use Rattle.std.specs.Prelude.{◌≡◌};
ghost use Rattle.kte_script.specs.declared.limits.Limits.TheVariants.{Script};
ghost use Rattle.kte_script.specs.Table.{insert_row, wrap_row, unwrap_row, remove_row, replace_row, range_row, setrange_row, droprange_row, where_row, unlock_row, land_row, fold_row, unfold_row, find_row, findback_row, all_row, check_row, find_rows, range_rows, other_rows, table, row_in};
ghost use Rattle.kte_script.specs.Reading.{Gives, Moves, row_at, row_or_fault, front_at, command_at};

use crate::fault::ReadError;
use crate::limits::Limits;
use crate::words::Words;
use kte_command::Command;
use kte_edit::Change;
use std::alloc::Global;

/// Returns the command that is all of a script's line.
#[tactic(auto, unfolding(crate::specs::Reading::command_at))]
pub(crate) fn read_line(alloc: Global, line: &[u8]) -> Result<Command, ReadError>
    ensures { Gives (λ command. command) result (command_at line.now) }
{
    let mut words = Words { rest: line };
    let command = words.command(alloc, Limits::Script)?;
    words.finish()?;
    Ok(command)
}

impl Words<'_> {
    /// Takes a command.
    #[tactic(auto, unfolding(crate::specs::Reading::front_at))]
    pub fn command(&mut self, alloc: Global, limits: Limits) -> Result<Command, ReadError>
        ensures { Moves result self.new.rest.now (front_at limits table self.old.rest.now) }
    {
        let (word, left) = self.word();
        self.command_of(alloc, limits, word, left)
    }

    /// Takes the fields of the command that a word names. From that word on `left` bytes are left.
    fn command_of(
        &mut self,
        alloc: Global,
        limits: Limits,
        word: &[u8],
        left: usize,
    ) -> Result<Command, ReadError>
        ensures { Moves result self.new.rest.now
            (row_or_fault limits (row_in table word.now) left self.old.rest.now) }
    {
        if word == b"insert".as_slice() {
            self.insert(alloc, limits)
        } else if word == b"wrap".as_slice() {
            self.wrap(limits)
        } else if word == b"unwrap".as_slice() {
            self.unwrap(limits)
        } else if word == b"remove".as_slice() {
            self.remove(limits)
        } else if word == b"replace".as_slice() {
            self.replace(alloc, limits)
        } else {
            self.other_of(alloc, limits, word, left)
        }
    }

    /// Takes the fields of the command that a word names, if it is no edit. From that word on
    /// `left` bytes are left.
    #[tactic(auto, unfolding(crate::specs::Reading::row_at))]
    fn other_of(
        &mut self,
        alloc: Global,
        limits: Limits,
        word: &[u8],
        left: usize,
    ) -> Result<Command, ReadError>
        ensures { Moves result self.new.rest.now
            (row_or_fault limits (row_in other_rows word.now) left self.old.rest.now) }
    {
        if word == b"begin".as_slice() {
            Ok(Command::Begin)
        } else if word == b"end".as_slice() {
            Ok(Command::End)
        } else if word == b"undo".as_slice() {
            Ok(Command::Undo)
        } else if word == b"redo".as_slice() {
            Ok(Command::Redo)
        } else if word == b"lock".as_slice() {
            Ok(Command::Lock)
        } else if word == b"unlock".as_slice() {
            self.unlock(limits)
        } else if word == b"check".as_slice() {
            self.check(alloc, limits)
        } else if word == b"sync".as_slice() {
            Ok(Command::Sync)
        } else if word == b"save".as_slice() {
            Ok(Command::Save)
        } else {
            self.range_of(alloc, limits, word, left)
        }
    }

    /// Takes the fields of the command about ranges, folds or searches that a word names. From that
    /// word on `left` bytes are left.
    fn range_of(
        &mut self,
        alloc: Global,
        limits: Limits,
        word: &[u8],
        left: usize,
    ) -> Result<Command, ReadError>
        ensures { Moves result self.new.rest.now
            (row_or_fault limits (row_in range_rows word.now) left self.old.rest.now) }
    {
        if word == b"range".as_slice() {
            self.range(limits)
        } else if word == b"setrange".as_slice() {
            self.setrange(limits)
        } else if word == b"droprange".as_slice() {
            self.droprange(limits)
        } else if word == b"where".as_slice() {
            self.show(limits)
        } else if word == b"land".as_slice() {
            self.land(limits)
        } else if word == b"fold".as_slice() {
            self.fold(limits)
        } else if word == b"unfold".as_slice() {
            self.unfold(limits)
        } else {
            self.find_of(alloc, limits, word, left)
        }
    }

    /// Takes the fields of the search that a word names. From that word on `left` bytes are left.
    fn find_of(
        &mut self,
        alloc: Global,
        limits: Limits,
        word: &[u8],
        left: usize,
    ) -> Result<Command, ReadError>
        ensures { Moves result self.new.rest.now
            (row_or_fault limits (row_in find_rows word.now) left self.old.rest.now) }
    {
        if word == b"find".as_slice() {
            self.find(alloc, limits)
        } else if word == b"findback".as_slice() {
            self.findback(alloc, limits)
        } else if word == b"all".as_slice() {
            self.all(alloc, limits)
        } else {
            Err(ReadError::Misfit { left })
        }
    }

    #[tactic(auto, unfolding(crate::specs::Reading::row_at))]
    fn insert(&mut self, alloc: Global, limits: Limits) -> Result<Command, ReadError>
        ensures { Moves result self.new.rest.now (row_at limits insert_row self.old.rest.now) }
    {
        let at = self.place(limits)?;
        let text = self.text(alloc)?;
        Ok(Command::Edit {
            change: Change::Insert { at, text },
        })
    }

    #[tactic(auto, unfolding(crate::specs::Reading::row_at))]
    fn wrap(&mut self, limits: Limits) -> Result<Command, ReadError>
        ensures { Moves result self.new.rest.now (row_at limits wrap_row self.old.rest.now) }
    {
        let at = self.place(limits)?;
        Ok(Command::Edit {
            change: Change::Wrap { at },
        })
    }

    #[tactic(auto, unfolding(crate::specs::Reading::row_at))]
    fn unwrap(&mut self, limits: Limits) -> Result<Command, ReadError>
        ensures { Moves result self.new.rest.now (row_at limits unwrap_row self.old.rest.now) }
    {
        let line = self.line(limits)?;
        Ok(Command::Edit {
            change: Change::Unwrap { line },
        })
    }

    #[tactic(auto, unfolding(crate::specs::Reading::row_at))]
    fn remove(&mut self, limits: Limits) -> Result<Command, ReadError>
        ensures { Moves result self.new.rest.now (row_at limits remove_row self.old.rest.now) }
    {
        let span = self.span(limits)?;
        Ok(Command::Edit {
            change: Change::Remove { span },
        })
    }

    #[tactic(auto, unfolding(crate::specs::Reading::row_at))]
    fn replace(&mut self, alloc: Global, limits: Limits) -> Result<Command, ReadError>
        ensures { Moves result self.new.rest.now (row_at limits replace_row self.old.rest.now) }
    {
        let span = self.span(limits)?;
        let text = self.text(alloc)?;
        Ok(Command::Edit {
            change: Change::Replace { span, text },
        })
    }

    #[tactic(auto, unfolding(crate::specs::Reading::row_at))]
    fn range(&mut self, limits: Limits) -> Result<Command, ReadError>
        ensures { Moves result self.new.rest.now (row_at limits range_row self.old.rest.now) }
    {
        let span = self.span(limits)?;
        let expand = self.expand()?;
        let empty = self.empty()?;
        Ok(Command::MakeRange {
            span,
            expand,
            empty,
        })
    }

    #[tactic(auto, unfolding(crate::specs::Reading::row_at))]
    fn setrange(&mut self, limits: Limits) -> Result<Command, ReadError>
        ensures { Moves result self.new.rest.now (row_at limits setrange_row self.old.rest.now) }
    {
        let id = self.long(limits)?;
        let span = self.span(limits)?;
        Ok(Command::SetRange { id, span })
    }

    #[tactic(auto, unfolding(crate::specs::Reading::row_at))]
    fn droprange(&mut self, limits: Limits) -> Result<Command, ReadError>
        ensures { Moves result self.new.rest.now (row_at limits droprange_row self.old.rest.now) }
    {
        let id = self.long(limits)?;
        Ok(Command::DropRange { id })
    }

    #[tactic(auto, unfolding(crate::specs::Reading::row_at))]
    fn show(&mut self, limits: Limits) -> Result<Command, ReadError>
        ensures { Moves result self.new.rest.now (row_at limits where_row self.old.rest.now) }
    {
        let id = self.long(limits)?;
        Ok(Command::ShowRange { id })
    }

    #[tactic(auto, unfolding(crate::specs::Reading::row_at))]
    fn unlock(&mut self, limits: Limits) -> Result<Command, ReadError>
        ensures { Moves result self.new.rest.now (row_at limits unlock_row self.old.rest.now) }
    {
        let revision = self.long(limits)?;
        Ok(Command::Unlock { revision })
    }

    #[tactic(auto, unfolding(crate::specs::Reading::row_at))]
    fn land(&mut self, limits: Limits) -> Result<Command, ReadError>
        ensures { Moves result self.new.rest.now (row_at limits land_row self.old.rest.now) }
    {
        let revision = self.long(limits)?;
        let span = self.span(limits)?;
        let expand = self.expand()?;
        let empty = self.empty()?;
        Ok(Command::Land {
            revision,
            span,
            expand,
            empty,
        })
    }

    #[tactic(auto, unfolding(crate::specs::Reading::row_at))]
    fn fold(&mut self, limits: Limits) -> Result<Command, ReadError>
        ensures { Moves result self.new.rest.now (row_at limits fold_row self.old.rest.now) }
    {
        let span = self.span(limits)?;
        Ok(Command::Fold { span })
    }

    #[tactic(auto, unfolding(crate::specs::Reading::row_at))]
    fn unfold(&mut self, limits: Limits) -> Result<Command, ReadError>
        ensures { Moves result self.new.rest.now (row_at limits unfold_row self.old.rest.now) }
    {
        let id = self.long(limits)?;
        Ok(Command::Unfold { id })
    }

    #[tactic(auto, unfolding(crate::specs::Reading::row_at))]
    fn find(&mut self, alloc: Global, limits: Limits) -> Result<Command, ReadError>
        ensures { Moves result self.new.rest.now (row_at limits find_row self.old.rest.now) }
    {
        let from = self.place(limits)?;
        let query = self.query(alloc)?;
        Ok(Command::Find { from, query })
    }

    #[tactic(auto, unfolding(crate::specs::Reading::row_at))]
    fn findback(&mut self, alloc: Global, limits: Limits) -> Result<Command, ReadError>
        ensures { Moves result self.new.rest.now (row_at limits findback_row self.old.rest.now) }
    {
        let before = self.place(limits)?;
        let query = self.query(alloc)?;
        Ok(Command::FindBack { before, query })
    }

    #[tactic(auto, unfolding(crate::specs::Reading::row_at))]
    fn all(&mut self, alloc: Global, limits: Limits) -> Result<Command, ReadError>
        ensures { Moves result self.new.rest.now (row_at limits all_row self.old.rest.now) }
    {
        let query = self.query(alloc)?;
        Ok(Command::All { query })
    }

    #[tactic(auto, unfolding(crate::specs::Reading::row_at))]
    fn check(&mut self, alloc: Global, limits: Limits) -> Result<Command, ReadError>
        ensures { Moves result self.new.rest.now (row_at limits check_row self.old.rest.now) }
    {
        let rule = self.rule(alloc, limits)?;
        Ok(Command::Check { rule })
    }
}

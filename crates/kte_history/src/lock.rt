ghost use Rattle.std.specs.Prelude.{◌≡◌, position};
ghost use Rattle.kte_history.specs.Locks.{is_owner, is_lock_of, is_locked, has_lock, unlocked, oldest, IsRising};

/// Who holds a lock.
#[derive(Clone, Copy, Debug, PartialEq, Eq, Hash)]
pub enum Owner {
    /// The editor.
    Editor,
    /// A job.
    Job {
        /// Its number.
        job: u32,
    },
}

/// A lock on a revision, as KTextEditor's `lockRevision` makes one.
#[derive(Clone, Copy, Debug, PartialEq, Eq, Hash)]
pub struct Lock {
    /// Who holds it.
    pub owner: Owner,
    /// The revision that it keeps.
    pub revision: u64,
}

impl Owner {
    /// Whether the two are the same.
    fn is(self, other: Owner) -> bool
        ensures { result ≡ is_owner self other }
    {
        match (self, other) {
            (Owner::Editor, Owner::Editor) => true,
            (Owner::Job { job }, Owner::Job { job: other }) => job == other,
            _ => false,
        }
    }
}

impl Lock {
    /// Whether this owner holds the lock, on this revision.
    fn is_of(&self, owner: Owner, revision: u64) -> bool
        ensures { result ≡ is_lock_of owner revision self.now }
    {
        self.owner.is(owner) && self.revision == revision
    }
}

/// Removes the first lock of this owner on this revision, and returns whether there was one.
pub(crate) fn remove_first(locks: &mut Vec<Lock>, owner: Owner, revision: u64) -> bool
    ensures found { result ≡ has_lock locks.old.items owner revision }
    ensures removed { locks.new.items ≡ unlocked locks.old.items owner revision }
{
    let Some(at) = index_of(locks, owner, revision) else {
        return false;
    };
    locks.remove(at);
    true
}

/// Returns the index of the first lock of this owner on this revision.
fn index_of(locks: &[Lock], owner: Owner, revision: u64) -> Option<usize>
    ensures { result ≡ position (is_lock_of owner revision) locks.now }
{
    locks.iter().position(|lock| lock.is_of(owner, revision))
}

/// Whether the revision is locked, by anybody.
pub(crate) fn is_locked(locks: &[Lock], revision: u64) -> bool
    requires { IsRising locks.now }
    ensures { result ≡ is_locked locks.now revision }
{
    locks
        .binary_search_by_key(&revision, |lock| lock.revision)
        .is_ok()
}

/// Returns the oldest locked revision, if any is locked.
pub(crate) fn oldest(locks: &[Lock]) -> Option<u64>
    requires { IsRising locks.now }
    ensures { result ≡ oldest locks.now }
{
    match locks {
        [first, ..] => Some(first.revision),
        [] => None,
    }
}

ghost use Rattle.std.specs.Prelude.{◌≡◌, ◌≢◌, ◌⊎◌, ◌<◌, ◌≤◌, ℕ, List, [], length, true, false, Some, IfSome, IfOk, IfErr, OnOk, Ok, Err};
ghost use Rattle.kte_text.specs.Texts.{IsText};
ghost use Rattle.kte_text.specs.Files.{Loads, Refuses};
ghost use Rattle.kte_text.specs.Digests.{digest_of};
ghost use Rattle.kte_record.specs.Grammar.{HasHeader, HasVersion};
ghost use Rattle.kte_record.specs.Recovery.{Answer, Answers, AnswersBeside};
ghost use Rattle.kte_record.specs.declared.header.TheConstants.{HEADER_LENGTH};
ghost use Rattle.kte_recover.specs.Answers.{answer_of, IsAllowed, IsRefusal, KeepsEnds, KeepsFile, RefusesHeader};
ghost use Rattle.kte_recover.specs.declared.answer.RecoverFault.TheVariants as RecoverFault;
ghost use Rattle.kte_recover.specs.declared.answer.Tail.TheVariants as Tail;

use crate::answer::{Damage, RecoverFault, Recovered, Tail};
use crate::replay::{End, Replay};
use kte_record::{Header, read_header};
use kte_text::{LoadFault, Loaded, digest, load};
use std::alloc::Global;

/// Recovers the text of a saved file and the swap file beside it: the saved text after the
/// transactions that have an end, up to the first record at fault. What a transaction without an
/// end changed is taken back.
///
/// Fails with the first cause in the order of [`RecoverFault`]. A swap file that is cut short is
/// torn and no failure; within its header, it has no transactions.
pub fn recover(alloc: Global, saved: &[u8], swap: &[u8]) -> Result<Recovered, RecoverFault>
    ensures answer { IfSome (answer_of result) (Answers saved.now swap.now) }
    ensures file { KeepsFile saved.now result }

    // Unless memory runs out, the answer is the one that there is. No refusal depends on memory.
    ensures only { (answer : Answer) → Answers saved.now swap.now answer
        → (result ≡ Err RecoverFault.NoMemory) ⊎ (answer_of result ≡ Some answer) }
    ensures refusal { (answer : Answer) → IsRefusal answer → Answers saved.now swap.now answer
        → answer_of result ≡ Some answer }
{
    if swap.is_empty() {
        return Err(RecoverFault::NoSwap);
    }
    recover_some(alloc, saved, swap)
}

/// The same for a saved file that is loaded already, and a swap file that is not empty.
pub fn recover_loaded(
    alloc: Global,
    saved: &[u8],
    loaded: Loaded,
    swap: &[u8],
) -> Result<Recovered, RecoverFault>
    requires loads { Loads saved.now loaded }
    requires allowed { IsAllowed saved.now }
    requires some { swap.now ≢ [] }
    ensures answer { IfSome (answer_of result) (Answers saved.now swap.now) }
    ensures file { KeepsFile saved.now result }

    // Unless memory runs out, the answer is the one that there is. No refusal depends on memory.
    ensures only { (answer : Answer) → Answers saved.now swap.now answer
        → (result ≡ Err RecoverFault.NoMemory) ⊎ (answer_of result ≡ Some answer) }
    ensures refusal { (answer : Answer) → IsRefusal answer → Answers saved.now swap.now answer
        → answer_of result ≡ Some answer }
{
    recover_beside(alloc, saved, loaded, swap)
}

// The same, with the clauses that the steps need.
fn recover_beside(
    alloc: Global,
    saved: &[u8],
    loaded: Loaded,
    swap: &[u8],
) -> Result<Recovered, RecoverFault>
    requires loads { Loads saved.now loaded }
    requires allowed { IsAllowed saved.now }
    requires some { swap.now ≢ [] }
    ensures answer { IfSome (answer_of result) (Answers saved.now swap.now) }
    ensures file { KeepsFile saved.now result }
    ensures memory { (answer : Answer) → IsRefusal answer → Answers saved.now swap.now answer
        → result ≢ Err RecoverFault.NoMemory }
{
    let is_whole = check_header(saved, swap)?;
    if is_whole {
        replay(alloc, loaded, swap)
    } else {
        Ok(nothing_done(loaded))
    }
}

// The same for a saved file that is to be loaded.
fn recover_some(alloc: Global, saved: &[u8], swap: &[u8]) -> Result<Recovered, RecoverFault>
    requires { swap.now ≢ [] }
    ensures answer { IfSome (answer_of result) (Answers saved.now swap.now) }
    ensures file { KeepsFile saved.now result }
    ensures memory { (answer : Answer) → IsRefusal answer → Answers saved.now swap.now answer
        → result ≢ Err RecoverFault.NoMemory }
{
    match load_saved(alloc, saved) {
        Ok(Some(loaded)) => recover_beside(alloc, saved, loaded, swap),
        Ok(None) => {
            // The header is judged whether there is memory for the text or not.
            check_header(saved, swap)?;
            Err(RecoverFault::NoMemory)
        }
        Err(fault) => Err(RecoverFault::Load(fault)),
    }
}

// Loads the saved file, or returns `None` if there is no memory for it. Fails if it is refused.
fn load_saved(alloc: Global, saved: &[u8]) -> Result<Option<Loaded>, LoadFault>
    ensures ok { OnOk result (IsAllowed saved.now) }
    ensures loaded { IfOk result (λ loaded. IfSome loaded
        (λ loaded. Loads saved.now loaded × IsText loaded.text)) }
    ensures err { IfErr result (Refuses saved.now) }
{
    match load(alloc, saved) {
        Ok(loaded) => Ok(Some(loaded)),
        Err(LoadFault::NoMemory) => Ok(None),
        Err(fault) => Err(fault),
    }
}

// Returns `true` for a whole header and `false` for the front of one. Fails if the version is
// another, or the header is that of another file.
fn check_header(saved: &[u8], swap: &[u8]) -> Result<bool, RecoverFault>
    ensures whole { result ≡ Ok true → HasHeader swap.now (digest_of saved.now) }
    ensures part { result ≡ Ok false
        → HasVersion swap.now × (length swap.now < HEADER_LENGTH) }
    ensures err { IfErr result (RefusesHeader (digest_of saved.now) swap.now) }
{
    match read_header(swap) {
        Header::Version => Err(RecoverFault::Version),
        Header::Part => Ok(false),
        Header::Got { kept } => {
            let found = digest(saved);
            if kept != found {
                return Err(RecoverFault::FileChanged { kept, found });
            }
            Ok(true)
        }
    }
}

// The answer for a swap file that ends within its header.
fn nothing_done(loaded: Loaded) -> Recovered
    ensures { result ≡ record {
      text = loaded.text;
      eol = loaded.eol;
      bom = loaded.bom;
      done = 0;
      tail = Tail.Torn;
    } }
{
    Recovered {
        text: loaded.text,
        eol: loaded.eol,
        bom: loaded.bom,
        done: 0,
        tail: Tail::Torn,
    }
}

// The answer for a swap file with a whole header.
fn replay(alloc: Global, loaded: Loaded, swap: &[u8]) -> Result<Recovered, RecoverFault>
    requires text { IsText loaded.text }
    requires header { HEADER_LENGTH ≤ length swap.now }
    ensures answer { (digest : List ℕ) → HasHeader swap.now digest
        → IfSome (answer_of result) (AnswersBeside loaded.text digest swap.now) }
    ensures file { KeepsEnds loaded result }
{
    let Loaded { text, eol, bom } = loaded;
    let mut replay = Replay::new(alloc, text)?;
    let end = replay.run(alloc, swap)?;
    let done = replay.done;
    let text = replay.close(alloc)?;
    match end {
        End::Clean => Ok(Recovered {
            text,
            eol,
            bom,
            done,
            tail: Tail::Clean,
        }),
        End::Torn => Ok(Recovered {
            text,
            eol,
            bom,
            done,
            tail: Tail::Torn,
        }),
        End::Damaged { at } => Err(RecoverFault::Damaged(Damage {
            at,
            done,
            text,
            eol,
            bom,
        })),
    }
}

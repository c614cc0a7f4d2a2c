use crate::{NotOpen, Undo, UndoFault};
use kte_text::{Batch, Primitive};
use std::test::Fail;

fn is_removal(batch: &Batch, line: u32, column: u64, length: u64) -> bool {
    batch.len() == 1
        && match batch.get(0) {
            Primitive::Remove {
                line: at,
                column: from,
                length: units,
            } => *at == line && *from == column && *units == length,
            _ => false,
        }
}

fn is_insertion(batch: &Batch, line: u32, column: u64, units: &[u16]) -> bool {
    batch.len() == 1
        && match batch.get(0) {
            Primitive::Insert {
                line: at,
                column: from,
                text,
            } => *at == line && *from == column && text.units() == units,
            _ => false,
        }
}

#[test]
fn nothing_is_undone_in_an_open_transaction(rt: HostRuntime) -> Result<(), Fail> {
    let mut undo = Undo::new(rt.alloc());
    assert_eq!(rt; undo.back().err(), Some(UndoFault::Nothing));
    assert_eq!(rt; undo.forth().err(), Some(UndoFault::Nothing));
    assert_eq!(rt; undo.end(), Err(NotOpen));
    assert_eq!(rt; undo.begin(), 1);
    assert_eq!(rt; undo.back().err(), Some(UndoFault::StillOpen { depth: 1 }));
    assert_eq!(rt; undo.end(), Ok(0));
    assert_eq!(rt; undo.counts(), (0, 0));
    Ok(())
}

#[test]
fn a_removal_is_undone_and_redone(rt: HostRuntime) -> Result<(), Fail> {
    let alloc = rt.alloc();
    let mut undo = Undo::new(alloc);
    let removal = Primitive::Remove {
        line: 0,
        column: 0,
        length: 1,
    };
    undo.reserve(&removal, &[0x61])?;
    undo.begin();
    undo.note(&removal, &[0x61], 0);
    assert_eq!(rt; undo.end(), Ok(0));
    assert_eq!(rt; undo.counts(), (1, 0));
    let back = undo.back()?;
    assert!(rt; is_insertion(&back, 0, 0, &[0x61]));
    undo.went_back(1);
    assert_eq!(rt; undo.counts(), (0, 1));
    let forth = undo.forth()?;
    assert!(rt; is_removal(&forth, 0, 0, 1));
    Ok(())
}

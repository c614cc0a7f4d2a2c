ghost use Rattle.std.specs.Prelude.{◌≡◌, ◌+◌, ◌<◌, ◌^◌, [], None, IfOk, length};
ghost use Rattle.kte_desk.specs.Calls.{IsOfEditor};
ghost use Rattle.kte_desk.specs.Passes.{IsCheckerOf, IsEditorOf, checker_known, editor_known, share_of, work_of};
ghost use Rattle.kte_core.specs.Requests.{IsAllowed};

use crate::{CheckerPass, Desk, EditorPass, Taking};
use kte_command::Command;
use kte_core::{Core, Request};
use kte_find::{Checker, PlainChecker, Rule};
use kte_text::load;
use std::alloc::Global;
use std::sync::Wait;
use std::test::Fail;
use std::thread::join;

/// How many turns are made while a checker comes to rest.
const TURNS: u32 = 1_000;

/// A desk over a text, with one checker.
fn desk_of(alloc: Global, text: &[u8]) -> Result<(Desk, EditorPass, CheckerPass), Fail>
    ensures own { IfOk result (λ made. IsEditorOf made.0 made.1 × IsCheckerOf made.0 made.2) }
    ensures shares { IfOk result (λ made. (editor_known made.1).share + share_of made.2
        ≡ (editor_known made.1).seats) }
    ensures fresh { IfOk result (λ made. ((editor_known made.1).own ≡ [])
        × (work_of made.2 ≡ None)) }
{
    let core = Core::new(alloc, load(alloc, text)?, 8)?;
    let Ok((desk, editor, mut checkers)) = Desk::start(alloc, core, 1) else {
        return Err(Fail::from("out of memory"));
    };
    let checker = checkers.pop().unwrap();
    Ok((desk, editor, checker))
}

/// Makes turns without an event, and then a request.
fn ask_late<R: Wait>(
    rt: &R,
    alloc: Global,
    desk: &Desk,
    pass: EditorPass,
    request: Request,
) -> EditorPass
    requires own { IsEditorOf desk.now pass }
    requires of_editor { IsOfEditor request }
    requires allowed { IsAllowed 0 request }
    requires few { length (editor_known pass).own < 2 ^ 31 }
    ensures own { IsEditorOf desk.now result }
    ensures share { (editor_known result).share ≡ (editor_known pass).share }
    ensures seats { (editor_known result).seats ≡ (editor_known pass).seats }
{
    let mut pass = pass;
    for _ in 0..TURNS {
        let (_, later) = desk.saved_form(rt, alloc, pass);
        pass = later;
    }
    let (_, pass) = desk.command(rt, alloc, pass, request);
    pass
}

/// Rests until there is a job, gives it back, takes it again, and delivers what its rule finds.
fn work<R: Wait>(rt: &R, alloc: Global, desk: &Desk, pass: CheckerPass) -> CheckerPass
    requires own { IsCheckerOf desk.now pass }
    requires none { work_of pass ≡ None }
    ensures own { IsCheckerOf desk.now result }
    ensures share { share_of result ≡ share_of pass }
{
    let pass = desk.rest(rt, pass);
    let (taking, pass) = desk.take(rt, alloc, pass);
    let Ok(Taking::Took { .. }) = taking else {
        return pass;
    };
    let pass = desk.give_back(rt, alloc, pass);
    let (taking, pass) = desk.take(rt, alloc, pass);
    let Ok(Taking::Took { rule, text, .. }) = taking else {
        return pass;
    };
    let Ok(findings) = PlainChecker.check(alloc, &rule, &text) else {
        return pass;
    };
    let (_, pass) = desk.deliver(rt, alloc, pass, findings);
    pass
}

/// Rests, and returns whether there is no job because the session is closed.
fn rest_to_the_end<R: Wait>(
    rt: &R,
    alloc: Global,
    desk: &Desk,
    pass: CheckerPass,
) -> (bool, CheckerPass)
    requires own { IsCheckerOf desk.now pass }
    requires none { work_of pass ≡ None }
{
    let pass = desk.rest(rt, pass);
    let (taking, pass) = desk.take(rt, alloc, pass);
    match taking {
        Ok(Taking::NoJob { closed }) => (closed, pass),
        _ => (false, pass),
    }
}

#[test]
fn a_checker_that_rests_gets_the_job_that_is_posted(rt: HostRuntime) -> Result<(), Fail> {
    let alloc = rt.alloc();
    let (desk, editor, checker) = desk_of(alloc, b"a  \n b")?;
    let check = Request::Cmd(Command::Check { rule: Rule::Blanks });
    let (editor, checker) = join(
        &rt,
        || ask_late(&rt, alloc, &desk, editor, check),
        || work(&rt, alloc, &desk, checker),
    );
    let core = desk.close(editor, vec![in alloc; checker]?);
    assert_eq!(rt; core.journal().len(), 5);
    assert!(rt; !core.is_closed());
    assert_eq!(rt; core.waiting(), None);
    assert_eq!(rt; core.doc().next_id(), 2);
    Ok(())
}

#[test]
fn a_checker_that_rests_is_woken_by_the_close(rt: HostRuntime) -> Result<(), Fail> {
    let alloc = rt.alloc();
    let (desk, editor, checker) = desk_of(alloc, b"a")?;
    let (_, (is_closed, _)) = join(
        &rt,
        || ask_late(&rt, alloc, &desk, editor, Request::Close),
        || rest_to_the_end(&rt, alloc, &desk, checker),
    );
    assert!(rt; is_closed);
    Ok(())
}

#[test]
fn a_save_writes_the_present_text(rt: HostRuntime) -> Result<(), Fail> {
    let alloc = rt.alloc();
    let (desk, editor, _) = desk_of(alloc, b"a  \n b")?;
    let (bytes, _) = desk.saved_form(&rt, alloc, editor);
    assert!(rt; bytes?.as_slice() == b"a  \n b".as_slice());
    Ok(())
}

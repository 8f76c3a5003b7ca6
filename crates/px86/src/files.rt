//! What is asked for is done on each file.
ghost use Rattle.std.specs.Prelude.{◌≡◌, ◌≤◌, List, ℕ, map, max};
ghost use Rattle.commands.specs.Devices.{CanCountOneMore};
ghost use Rattle.commands.specs.Serving.{used};
ghost use Rattle.px86.specs.CommandLines.{AsksFor, AsksForThreads, HasFiles, HasForm, HasMoves};
ghost use Rattle.px86.specs.Starts.{exit_status, is_unwritten, AreDone};

use crate::explanation::{report_answer, report_places};
use crate::outside::Outside;
use crate::request::{Form, Request, Requests};
use crate::task::{Ended, do_task};
use commands::{Device, Fault, Sink, Status};
use explanations::sentence;
use std::alloc::Global;
use std::sync::Wait;
use std::thread::Threads;

/// The exit status after what was answered.
pub(crate) fn status_of(answer: Result<Status, Fault>) -> u8
    ensures status { result ≡ exit_status answer }
    ensures low { result ≤ 5 }
{
    match answer {
        Ok(status) => status.code(),
        Err(fault) => fault.code(),
    }
}

/// Reports the fault of a task, and says more of what it answered: its explanation, or, where memory ran out for that, the
/// sentence of its fault alone.
fn report_ended<R: Eprint>(rt: &R, alloc: Global, request: &Request<'_>, ended: &Ended) {
    let form = request.form;
    match (&ended.explanation, ended.answer) {
        (Ok(told), answer) => report_answer(rt, alloc, form, request.named, answer, Some(told)),
        (Err(_), Err(fault)) => {
            report_answer(rt, alloc, form, request.named, Err(fault), None);
            if form != Form::Json {
                let _ = eprintln!(rt; "{}", sentence(fault));
            }
        }
        (Err(_), Ok(_)) => {}
    }
}

/// The same in the form of compilers: a fault of the text has its place. Of all else more is said where that is asked for.
fn report_places_or<R: Eprint>(
    rt: &R,
    alloc: Global,
    request: &Request<'_>,
    ended: &Ended,
    explains: bool,
) {
    if let Ok(told) = &ended.explanation {
        if report_places(rt, request.file, ended.answer, told) {
            return;
        }
    }
    if explains {
        report_ended(rt, alloc, request, ended);
    } else {
        report_answer(rt, alloc, request.form, request.named, ended.answer, None);
    }
}

/// Whether it is that a report could not be written.
fn is_unwritten(answer: Result<Status, Fault>) -> bool
    ensures { result ≡ is_unwritten answer }
{
    match answer {
        Err(Fault::Device(Device::Write)) => true,
        _ => false,
    }
}

/// The greater of two exit statuses.
fn greater(one: u8, other: u8) -> u8
    ensures { result ≡ max one other }
{
    one.max(other)
}

/// Does what is asked for on each file in turn, and reports the fault of each on standard error. Where a report cannot be written,
/// the files behind it are left. The greatest exit status is answered.
pub(crate) fn answer_all<R: Eprint + Threads + Wait + Sync, O: Outside, W: Sink>(
    rt: &R,
    outside: &O,
    alloc: Global,
    requests: &Requests<'_>,
    explains: bool,
    out: &mut W,
) -> u8
    requires threads { AsksForThreads requests.now.first.task }
    requires out { CanCountOneMore (W.device out.old) }
    ensures done { (words : List (List ℕ))
        → AsksFor words requests.now.first.task requests.now.first.file.now requests.now.first.input
        → HasFiles words (map (λ file. file.now) requests.now.files.items)
        → HasForm words requests.now.first.form → HasMoves words requests.now.first.ways.moves
        → AreDone (O.world outside.now) words (map (λ file. file.now) requests.now.files.items)
        (used W.device out.old out.new) result }
    ensures status { result ≤ 5 }
{
    let files = requests.files.as_slice();
    let several = 1 < files.len();
    let places = requests.first.form == Form::Gcc;
    let keeps = explains || places;
    let mut status = 0;
    for file in files {
        let request = requests.first.of_file(file, several);
        let ended = do_task(rt, outside, alloc, &request, keeps, out);
        if places {
            report_places_or(rt, alloc, &request, &ended, explains);
        } else {
            report_ended(rt, alloc, &request, &ended);
        }
        status = greater(status, status_of(ended.answer));
        if is_unwritten(ended.answer) {
            return status;
        }
    }
    status
}

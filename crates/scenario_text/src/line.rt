//! What a line says by itself.

ghost use Rattle.std.specs.Prelude.{◌≡◌, ◌&&◌, map, bytes_eq, codes, IfOk};
ghost use Rattle.std.specs.List.{list_all};
ghost use Rattle.scenario_text.specs.Statements as forms;
ghost use Rattle.scenario_text.specs.Words as words;

use crate::fields::{
    connecting, frame_named, killing, moving, named, named_number, on_frame, two_names,
};
use crate::options::given_by;
use crate::scenario::Step;
use crate::statement::{Given, Keyword, Reading, Statement};
use crate::words::{address_of, is, is_name, number_in, text_of, words_of};
use link_script::LinkAct;
use std::alloc::{AllocError, Global};
use tas_model::Bytes;

/// The longest line, in bytes.
const LONGEST: usize = 4096;

/// What a line says by itself. The error is want of memory.
#[tactic(auto, unfolding(crate::specs::Statements::reading))]
pub(crate) fn read_line(alloc: Global, line: &[u8]) -> Result<Reading, AllocError>
    ensures { IfOk result (λ r. r ≡ forms.reading line.now) }
{
    if line.len() > LONGEST {
        return Ok(Reading::Wrong(1));
    }
    if !is_printable(line) {
        return Ok(Reading::Wrong(2));
    }
    let words = words_of(alloc, line)?;
    by_words(alloc, line, &words)
}

/// Whether all bytes are from 32 to 126.
fn is_printable(line: &[u8]) -> bool
    ensures { result ≡ list_all forms.is_printable line.now }
{
    line.iter().all(|c| *c >= 32 && *c <= 126)
}

fn is_comment(word: &[u8]) -> bool
    ensures { result ≡ forms.is_comment word.now }
{
    match word {
        [] => false,
        [first, ..] => *first == b'#',
    }
}

/// What a line of these words says.
fn by_words(alloc: Global, line: &[u8], words: &[&[u8]]) -> Result<Reading, AllocError>
    ensures { IfOk result (λ r. r ≡ forms.by_words line.now (map (λ w. w.now) words.now)) }
{
    match words {
        [] => Ok(Reading::Nothing),
        [word, rest @ ..] => {
            if is_comment(word) {
                return Ok(Reading::Nothing);
            }
            match keyword_of(word) {
                Some(keyword) => by_keyword(alloc, line, keyword, rest),
                None => Ok(Reading::Wrong(3)),
            }
        }
    }
}

/// The first word of a line, where it is one of a step.
fn keyword_of(word: &[u8]) -> Option<Keyword>
    ensures { result ≡ forms.keyword_of word.now }
{
    if is(word, b"listen") {
        return Some(Keyword::Listen);
    }
    if is(word, b"accept") {
        return Some(Keyword::Accept);
    }
    if is(word, b"connect") {
        return Some(Keyword::Connect);
    }
    if is(word, b"send") {
        return Some(Keyword::Send);
    }
    if is(word, b"fill") {
        return Some(Keyword::Fill);
    }
    if is(word, b"recv") {
        return Some(Keyword::Recv);
    }
    if is(word, b"drain") {
        return Some(Keyword::Drain);
    }
    if is(word, b"shut") {
        return Some(Keyword::Shut);
    }
    if is(word, b"close") {
        return Some(Keyword::Close);
    }
    if is(word, b"abort") {
        return Some(Keyword::Abort);
    }
    if is(word, b"wait") {
        return Some(Keyword::Wait);
    }
    other_keyword(word)
}

/// The first word of a line that is no step.
fn other_keyword(word: &[u8]) -> Option<Keyword>
    ensures { result ≡ forms.other_keyword word.now }
{
    if is(word, b"limit") {
        return Some(Keyword::Limit);
    }
    if is(word, b"host") {
        return Some(Keyword::Host);
    }
    if is(word, b"app") {
        return Some(Keyword::App);
    }
    if is(word, b"drop") {
        return Some(Keyword::Lose);
    }
    if is(word, b"dup") {
        return Some(Keyword::Dup);
    }
    if is(word, b"delay") {
        return Some(Keyword::Delay);
    }
    if is(word, b"corrupt") {
        return Some(Keyword::Corrupt);
    }
    if is(word, b"dropeach") {
        return Some(Keyword::DropEach);
    }
    if is(word, b"move") {
        return Some(Keyword::Move);
    }
    if is(word, b"kill") {
        return Some(Keyword::Kill);
    }
    None
}

/// What a line with this first word says, by the words behind it.
fn by_keyword(
    alloc: Global,
    line: &[u8],
    keyword: Keyword,
    words: &[&[u8]],
) -> Result<Reading, AllocError>
    ensures { IfOk result (λ r. r ≡ forms.by_keyword line.now (Some keyword) (map (λ w. w.now) words.now)) }
{
    match keyword {
        Keyword::Limit => Ok(limit_line(words)),
        Keyword::Host => host_line(alloc, words),
        Keyword::App => app_line(alloc, words),
        Keyword::Listen => listen_line(alloc, words),
        Keyword::Accept => accept_line(alloc, words),
        Keyword::Connect => connect_line(alloc, words),
        Keyword::Send => send_line(alloc, line, words),
        Keyword::Fill => fill_line(alloc, words),
        Keyword::Recv => recv_line(alloc, words),
        Keyword::Drain => drain_line(alloc, words),
        Keyword::Shut => shut_line(alloc, words),
        Keyword::Close => close_line(alloc, words),
        Keyword::Abort => abort_line(alloc, words),
        Keyword::Wait => Ok(wait_line(words)),
        Keyword::Lose => frame_line(alloc, LinkAct::Drop, words),
        Keyword::Dup => frame_line(alloc, LinkAct::Dup, words),
        Keyword::Delay => delay_line(alloc, words),
        Keyword::Corrupt => corrupt_line(alloc, words),
        Keyword::DropEach => drop_each_line(alloc, words),
        Keyword::Move => move_line(alloc, words),
        Keyword::Kill => kill_line(alloc, words),
    }
}

fn limit_line(words: &[&[u8]]) -> Reading
    ensures { result ≡ forms.limit_line (map (λ w. w.now) words.now) }
{
    match words {
        [ticks] => match number_in(1, 10_000, ticks) {
            Some(ticks) => Reading::Says(Statement::Limit(ticks)),
            None => Reading::Wrong(5),
        },
        _ => Reading::Wrong(4),
    }
}

fn host_line(alloc: Global, words: &[&[u8]]) -> Result<Reading, AllocError>
    ensures { IfOk result (λ r. r ≡ forms.host_line (map (λ w. w.now) words.now)) }
{
    match words {
        [name, addr, options @ ..] => {
            if options.len() % 2 != 0 || options.len() > 14 {
                return Ok(Reading::Wrong(4));
            }
            host_said(alloc, name, address_of(addr), given_by(options))
        }
        _ => Ok(Reading::Wrong(4)),
    }
}

fn host_said(
    alloc: Global,
    name: &[u8],
    addr: Option<u32>,
    given: Given,
) -> Result<Reading, AllocError>
    ensures { IfOk result (λ r. r ≡ forms.host_said name.now addr given) }
{
    match addr {
        Some(addr) if is_name(name) && !given.wrong => Ok(Reading::Says(Statement::Host(
            Bytes::copy(alloc, name)?,
            addr,
            given,
        ))),
        _ => Ok(Reading::Wrong(5)),
    }
}

fn app_line(alloc: Global, words: &[&[u8]]) -> Result<Reading, AllocError>
    ensures { IfOk result (λ r. r ≡ forms.app_line (map (λ w. w.now) words.now)) }
{
    match words {
        [host, name] => match two_names(alloc, host, name)? {
            Some((host, name)) => Ok(Reading::Says(Statement::App(host, name))),
            None => Ok(Reading::Wrong(5)),
        },
        _ => Ok(Reading::Wrong(4)),
    }
}

fn listen_line(alloc: Global, words: &[&[u8]]) -> Result<Reading, AllocError>
    ensures { IfOk result (λ r. r ≡ forms.listen_line (map (λ w. w.now) words.now)) }
{
    match words {
        [name, port] => match named_number(alloc, name, number_in(1, 49_151, port))? {
            Some((name, port)) => Ok(Reading::Says(Statement::Do(Step::Listen(name, port)))),
            None => Ok(Reading::Wrong(5)),
        },
        _ => Ok(Reading::Wrong(4)),
    }
}

fn accept_line(alloc: Global, words: &[&[u8]]) -> Result<Reading, AllocError>
    ensures { IfOk result (λ r. r ≡ forms.accept_line (map (λ w. w.now) words.now)) }
{
    match words {
        [socket, listener] => match two_names(alloc, socket, listener)? {
            Some((socket, listener)) => Ok(Reading::Says(Statement::Do(Step::Accept(
                socket, listener,
            )))),
            None => Ok(Reading::Wrong(5)),
        },
        _ => Ok(Reading::Wrong(4)),
    }
}

fn connect_line(alloc: Global, words: &[&[u8]]) -> Result<Reading, AllocError>
    ensures { IfOk result (λ r. r ≡ forms.connect_line (map (λ w. w.now) words.now)) }
{
    match words {
        [socket, host, port] => Ok(connecting(
            two_names(alloc, socket, host)?,
            number_in(1, 65_535, port),
        )),
        _ => Ok(Reading::Wrong(4)),
    }
}

fn send_line(alloc: Global, line: &[u8], words: &[&[u8]]) -> Result<Reading, AllocError>
    ensures { IfOk result (λ r. r ≡ forms.send_line line.now (map (λ w. w.now) words.now)) }
{
    let [socket, ..] = words else {
        return Ok(Reading::Wrong(4));
    };
    let text = text_of(line);
    if text.is_empty() {
        return Ok(Reading::Wrong(4));
    }
    send_said(alloc, socket, text)
}

fn send_said(alloc: Global, socket: &[u8], text: &[u8]) -> Result<Reading, AllocError>
    ensures { IfOk result (λ r. r ≡ forms.send_said socket.now text.now) }
{
    match named(alloc, socket)? {
        Some(socket) => {
            let text = Bytes::copy(alloc, text)?;
            Ok(Reading::Says(Statement::Do(Step::Send(socket, text))))
        }
        None => Ok(Reading::Wrong(5)),
    }
}

fn fill_line(alloc: Global, words: &[&[u8]]) -> Result<Reading, AllocError>
    ensures { IfOk result (λ r. r ≡ forms.fill_line (map (λ w. w.now) words.now)) }
{
    match words {
        [name, count] => match named_number(alloc, name, number_in(1, 1_048_576, count))? {
            Some((name, count)) => Ok(Reading::Says(Statement::Do(Step::Fill(name, count)))),
            None => Ok(Reading::Wrong(5)),
        },
        _ => Ok(Reading::Wrong(4)),
    }
}

fn recv_line(alloc: Global, words: &[&[u8]]) -> Result<Reading, AllocError>
    ensures { IfOk result (λ r. r ≡ forms.recv_line (map (λ w. w.now) words.now)) }
{
    match words {
        [name, count] => match named_number(alloc, name, number_in(1, 1_048_576, count))? {
            Some((name, count)) => Ok(Reading::Says(Statement::Do(Step::Recv(name, count)))),
            None => Ok(Reading::Wrong(5)),
        },
        _ => Ok(Reading::Wrong(4)),
    }
}

fn drain_line(alloc: Global, words: &[&[u8]]) -> Result<Reading, AllocError>
    ensures { IfOk result (λ r. r ≡ forms.name_line Step.Drain (map (λ w. w.now) words.now)) }
{
    match words {
        [name] => match named(alloc, name)? {
            Some(name) => Ok(Reading::Says(Statement::Do(Step::Drain(name)))),
            None => Ok(Reading::Wrong(5)),
        },
        _ => Ok(Reading::Wrong(4)),
    }
}

fn shut_line(alloc: Global, words: &[&[u8]]) -> Result<Reading, AllocError>
    ensures { IfOk result (λ r. r ≡ forms.name_line Step.Shut (map (λ w. w.now) words.now)) }
{
    match words {
        [name] => match named(alloc, name)? {
            Some(name) => Ok(Reading::Says(Statement::Do(Step::Shut(name)))),
            None => Ok(Reading::Wrong(5)),
        },
        _ => Ok(Reading::Wrong(4)),
    }
}

fn close_line(alloc: Global, words: &[&[u8]]) -> Result<Reading, AllocError>
    ensures { IfOk result (λ r. r ≡ forms.name_line Step.Close (map (λ w. w.now) words.now)) }
{
    match words {
        [name] => match named(alloc, name)? {
            Some(name) => Ok(Reading::Says(Statement::Do(Step::Close(name)))),
            None => Ok(Reading::Wrong(5)),
        },
        _ => Ok(Reading::Wrong(4)),
    }
}

fn abort_line(alloc: Global, words: &[&[u8]]) -> Result<Reading, AllocError>
    ensures { IfOk result (λ r. r ≡ forms.name_line Step.Abort (map (λ w. w.now) words.now)) }
{
    match words {
        [name] => match named(alloc, name)? {
            Some(name) => Ok(Reading::Says(Statement::Do(Step::Abort(name)))),
            None => Ok(Reading::Wrong(5)),
        },
        _ => Ok(Reading::Wrong(4)),
    }
}

fn wait_line(words: &[&[u8]]) -> Reading
    ensures { result ≡ forms.wait_line (map (λ w. w.now) words.now) }
{
    match words {
        [ticks] => match number_in(1, 10_000, ticks) {
            Some(ticks) => Reading::Says(Statement::Do(Step::Wait(ticks))),
            None => Reading::Wrong(5),
        },
        _ => Reading::Wrong(4),
    }
}

fn frame_line(alloc: Global, act: LinkAct, words: &[&[u8]]) -> Result<Reading, AllocError>
    ensures { IfOk result (λ r. r ≡ forms.frame_line act (map (λ w. w.now) words.now)) }
{
    match words {
        [host, flow, number] => Ok(on_frame(frame_named(alloc, host, flow, number)?, Some(act))),
        _ => Ok(Reading::Wrong(4)),
    }
}

fn delay_line(alloc: Global, words: &[&[u8]]) -> Result<Reading, AllocError>
    ensures { IfOk result (λ r. r ≡ forms.delay_line (map (λ w. w.now) words.now)) }
{
    match words {
        [host, flow, number, ticks] => Ok(on_frame(
            frame_named(alloc, host, flow, number)?,
            delay_of(number_in(1, 1_000, ticks)),
        )),
        _ => Ok(Reading::Wrong(4)),
    }
}

/// The delay by so many ticks, where there is a number of them.
fn delay_of(ticks: Option<u32>) -> Option<LinkAct>
    ensures { result ≡ forms.act_by LinkAct.Delay ticks }
{
    match ticks {
        Some(ticks) => Some(LinkAct::Delay(ticks)),
        None => None,
    }
}

fn corrupt_line(alloc: Global, words: &[&[u8]]) -> Result<Reading, AllocError>
    ensures { IfOk result (λ r. r ≡ forms.corrupt_line (map (λ w. w.now) words.now)) }
{
    match words {
        [host, flow, number, place] => Ok(on_frame(
            frame_named(alloc, host, flow, number)?,
            corruption_of(number_in(0, 65_534, place)),
        )),
        _ => Ok(Reading::Wrong(4)),
    }
}

/// The damage at this place, where there is a number of one.
fn corruption_of(place: Option<u32>) -> Option<LinkAct>
    ensures { result ≡ forms.act_by LinkAct.Corrupt place }
{
    match place {
        Some(place) => Some(LinkAct::Corrupt(place)),
        None => None,
    }
}

fn drop_each_line(alloc: Global, words: &[&[u8]]) -> Result<Reading, AllocError>
    ensures { IfOk result (λ r. r ≡ forms.drop_each_line (map (λ w. w.now) words.now)) }
{
    match words {
        [host, k] => match named_number(alloc, host, number_in(1, 4_294_967_294, k))? {
            Some((host, k)) => Ok(Reading::Says(Statement::DropEach(host, k))),
            None => Ok(Reading::Wrong(5)),
        },
        _ => Ok(Reading::Wrong(4)),
    }
}

fn move_line(alloc: Global, words: &[&[u8]]) -> Result<Reading, AllocError>
    ensures { IfOk result (λ r. r ≡ forms.move_line (map (λ w. w.now) words.now)) }
{
    match words {
        [host, group, core, word, at] => Ok(moving(
            named(alloc, host)?,
            number_in(0, 63, group),
            number_in(0, 15, core),
            number_in(0, 10_000, at),
            is(word, b"at"),
        )),
        _ => Ok(Reading::Wrong(4)),
    }
}

/// Whether these are the words `at` and `holding`.
fn are_at_and_holding(word: &[u8], last: &[u8]) -> bool
    ensures { result ≡ (bytes_eq word.now (codes "at") && bytes_eq last.now (codes "holding")) }
{
    is(word, b"at") && is(last, b"holding")
}

fn kill_line(alloc: Global, words: &[&[u8]]) -> Result<Reading, AllocError>
    ensures { IfOk result (λ r. r ≡ forms.kill_line (map (λ w. w.now) words.now)) }
{
    match words {
        [host, app, word, at] => kill_said(alloc, host, app, at, false, is(word, b"at")),
        [host, app, word, at, last] => kill_said(
            alloc,
            host,
            app,
            at,
            true,
            are_at_and_holding(word, last),
        ),
        _ => Ok(Reading::Wrong(4)),
    }
}

/// What a kill's line says, by the words of its host, application and tick, and by whether its other words are there.
fn kill_said(
    alloc: Global,
    host: &[u8],
    app: &[u8],
    at: &[u8],
    holding: bool,
    worded: bool,
) -> Result<Reading, AllocError>
    ensures { IfOk result (λ r. r ≡ forms.killing (forms.two_names host.now app.now) (words.number_in 0 10000 at.now)
        holding worded) }
{
    Ok(killing(
        two_names(alloc, host, app)?,
        number_in(0, 10_000, at),
        holding,
        worded,
    ))
}

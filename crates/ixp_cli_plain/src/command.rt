//! A command by its words, over the objects that the caller supplies.
ghost use Rattle.std.specs.Prelude.{
  ◌≡◌,
  ◌↔◌,
  ◌≤◌,
  List,
  ℕ,
  map,
  option_map,
  Option,
  Some,
  None,
  Ok,
  Err,
  IsSome,
  IsTrue,
  IfOk,
  IfErr,
  IfSome,
};
ghost use Rattle.ixp_cli_plain.specs.declared.command.Command.TheVariants.{Ask, Demo, Wait as Waits};
ghost use Rattle.ixp_cli_plain.specs.declared.command.Question.TheVariants.{Generate as AskFor};
ghost use Rattle.ixp_cli_plain.specs.Demos.{members_in};
ghost use Rattle.ixp_cli_plain.specs.Serving.{
  links_in,
  number_in,
  rtr_port,
  serve_both,
  serve_by,
  serve_rtr_by,
  serve_with,
};
ghost use Rattle.ixp_cli_plain.specs.Expansions.{IsAsked, expand_with, family_in, listing_in};
ghost use Rattle.ixp_cli_plain.specs.Restores.{Store};
ghost use Rattle.ixp_cli_plain.specs.Runs.{
  Answers,
  CommandRuns,
  Flow,
  IsNoAnswer,
  IsQuestion,
  IsSized,
  IsStatus,
  Outside,
  PlainEnds,
  PlainRuns,
  QuestionEnds,
  Runs,
  command_by,
  command_in,
  command_of,
  command_with,
  too_long,
};

use crate::check::check;
use crate::demo::run_demo;
use crate::dump::run_dump;
use crate::end::{End, NoAnswer, report};
use crate::eval::eval;
use crate::expansion::expansion;
use crate::export::export;
use crate::fate::fate;
use crate::generation::router_text;
use crate::restore::run_restore;
use crate::upgrading::run_upgrade;
use ixp_io::{Clock, Keeper, Sink, Source, WholeFault, read_whole, write_all};
use ixp_num::{Cause, Code, Family, Name, Place};
use ixp_num_tables::number_upto;
use ixp_registry::is_handle;
use ixp_rpsl::read_set_name;
use ixp_rpsl_text::Listing;
use std::alloc::{AllocError, Global};

/// The greatest number of bytes of an input that is read whole.
pub const INPUT_LIMIT: usize = 268_435_456;

/// The most members that a demo exchange may have.
const MOST_MEMBERS: u64 = 4000;

/// The last port.
const LAST_PORT: u64 = 65_535;

/// The most workers of a server. With the one that makes texts they are within the 64 seats of a desk.
const MOST_WORKERS: u64 = 62;

/// The most links that a server serves, where a number says it.
const MOST_LINKS: u64 = 1_000_000;

/// A command that reads all of its input, and writes what there is to say of it.
#[derive(Debug, Drop)]
pub enum Question {
    Check,
    Eval,
    Fate,
    /// The text of the router with the handle.
    Generate {
        router: Name,
    },
    /// The member export, at a second since 1970.
    Export {
        second: u64,
    },
    /// A listing of the expansion of a set, whose name is in upper case.
    Expand {
        set: Name,
        family: Family,
        listing: Listing,
    },
}

/// A port for routers that ask for ROAs, and how many of their links are served.
#[derive(Clone, Copy, Debug, PartialEq, Eq, Drop)]
pub struct RtrPort {
    pub port: u16,
    pub links: u64,
}

/// A command that waits for others.
#[derive(Clone, Copy, Debug, PartialEq, Eq, Drop)]
pub enum Waiting {
    /// Answers the requests of the input.
    Session,
    /// Answers the requests of so many links of a port, by so many workers, and the queries of routers.
    Serve {
        port: u16,
        workers: u32,
        links: u64,
        routers: Option<RtrPort>,
    },
}

/// A command of the program.
#[derive(Debug, Drop)]
pub enum Command {
    Ask { question: Question },
    /// Asks for the member export at the clock's second.
    Ixf,
    /// Puts the registry whose dump is read into the store, which has to be empty.
    Restore,
    /// Writes the dump of the store's registry.
    Dump,
    /// Makes a store of the first version today's.
    Upgrade,
    /// Writes how large the demo exchange with so many members is.
    Demo { members: u32 },
    Wait { waiting: Waiting },
}

fn ask(question: Question) -> Command
    ensures { result ≡ Ask question }
{
    Command::Ask { question }
}

/// The command that a word is.
fn command_by(word: &[u8]) -> Option<Command>
    ensures command { result ≡ command_by word.now }
    ensures sized { IsSized result }
{
    if word == b"check".as_slice() {
        Some(ask(Question::Check))
    } else if word == b"eval".as_slice() {
        Some(ask(Question::Eval))
    } else if word == b"fate".as_slice() {
        Some(ask(Question::Fate))
    } else if word == b"ixf".as_slice() {
        Some(Command::Ixf)
    } else if word == b"restore".as_slice() {
        Some(Command::Restore)
    } else if word == b"dump".as_slice() {
        Some(Command::Dump)
    } else if word == b"upgrade".as_slice() {
        Some(Command::Upgrade)
    } else if word == b"session".as_slice() {
        Some(Command::Wait {
            waiting: Waiting::Session,
        })
    } else {
        None
    }
}

/// The number of members that a word is, from 1 to 4000.
fn members_in(word: &[u8]) -> Option<u32>
    ensures number { result ≡ members_in word.now }
    ensures bound { IfSome result (λ n. n ≤ 4000) }
{
    match number_in(MOST_MEMBERS, word) {
        Some(number) => Some(number as u32),
        None => None,
    }
}

/// `demo` with the number of members that a word is.
fn demo_of(word: &[u8]) -> Option<Command>
    ensures command { result ≡ option_map Demo (members_in word.now) }
    ensures sized { IsSized result }
{
    match members_in(word) {
        Some(members) => Some(Command::Demo { members }),
        None => None,
    }
}

/// The command that a word and a handle are, or a word and a number of members.
#[tactic(auto, using(ixp_registry::proofs::HandleNames::handle_is_name))]
fn command_with(alloc: Global, word: &[u8], other: &[u8]) -> Result<Option<Command>, AllocError>
    ensures ok { IfOk result (λ c. c ≡ command_with word.now other.now) }
    ensures err { IfErr result (λ e. command_with word.now other.now ≡ Some (Ask (AskFor other.now))) }
    ensures sized { IfOk result IsSized }
{
    if word == b"generate".as_slice() && is_handle(other) {
        let router = Name::new(alloc, other)?;
        return Ok(Some(ask(Question::Generate { router })));
    }
    if word == b"demo".as_slice() {
        return Ok(demo_of(other));
    }
    Ok(None)
}

/// The family whose number a word is.
fn family_in(word: &[u8]) -> Option<Family>
    ensures { result ≡ family_in word.now }
{
    if word == b"4".as_slice() {
        Some(Family::V4)
    } else if word == b"6".as_slice() {
        Some(Family::V6)
    } else {
        None
    }
}

/// The listing that a word is.
fn listing_in(word: &[u8]) -> Option<Listing>
    ensures { result ≡ listing_in word.now }
{
    if word == b"sets".as_slice() {
        Some(Listing::Sets)
    } else if word == b"origins".as_slice() {
        Some(Listing::Origins)
    } else if word == b"prefixes".as_slice() {
        Some(Listing::Prefixes)
    } else {
        None
    }
}

/// The question that a set name in any case, a family and a listing are.
#[tactic(auto, using(crate::proofs::Expanding::expanding))]
fn expand_with(
    alloc: Global,
    set: &[u8],
    family: &[u8],
    listing: &[u8],
) -> Result<Option<Question>, AllocError>
    ensures ok { IfOk result (λ q. q ≡ expand_with set.now family.now listing.now) }
    ensures err { IfErr result (λ e. IsAsked (expand_with set.now family.now listing.now)) }
{
    let Some(family) = family_in(family) else {
        return Ok(None);
    };
    let Some(listing) = listing_in(listing) else {
        return Ok(None);
    };
    match read_set_name(alloc, set)? {
        Some(set) => Ok(Some(Question::Expand {
            set,
            family,
            listing,
        })),
        None => Ok(None),
    }
}

/// The number that a word is, from 1 to the greatest.
fn number_in(greatest: u64, word: &[u8]) -> Option<u64>
    ensures number { result ≡ number_in greatest word.now }
    ensures bound { IfSome result (λ n. n ≤ greatest) }
{
    match number_upto(greatest, word) {
        Some(0) => None,
        Some(number) => Some(number),
        None => None,
    }
}

/// The number of links that a word says: a number, or `always`, which is the last one of 64 bits.
fn links_in(word: &[u8]) -> Option<u64>
    ensures { result ≡ links_in word.now }
{
    if word == b"always".as_slice() {
        Some(u64::MAX)
    } else {
        number_in(MOST_LINKS, word)
    }
}

/// `serve` with a port, a number of workers and a number of links, and what there is for routers.
fn serve_with(
    port: &[u8],
    workers: &[u8],
    links: &[u8],
    routers: Option<RtrPort>,
) -> Option<Command>
    ensures command { result ≡ serve_with port.now workers.now links.now routers }
    ensures sized { IsSized result }
{
    let port = number_in(LAST_PORT, port)?;
    let workers = number_in(MOST_WORKERS, workers)?;
    let links = links_in(links)?;
    let waiting = Waiting::Serve {
        port: port as u16,
        workers: workers as u32,
        links,
        routers,
    };
    Some(Command::Wait { waiting })
}

/// A port and a number of links for routers.
fn rtr_port(port: &[u8], links: &[u8]) -> Option<RtrPort>
    ensures { result ≡ rtr_port port.now links.now }
{
    let port = number_in(LAST_PORT, port)?;
    let links = links_in(links)?;
    Some(RtrPort {
        port: port as u16,
        links,
    })
}

/// `serve` with a port, a number of workers and a number of links, and a port and a number of links for
/// routers.
fn serve_both(
    port: &[u8],
    workers: &[u8],
    links: &[u8],
    rtr: &[u8],
    routers: &[u8],
) -> Option<Command>
    ensures command { result ≡ serve_both port.now workers.now links.now rtr.now routers.now }
    ensures sized { IsSized result }
{
    match rtr_port(rtr, routers) {
        Some(rtr) => serve_with(port, workers, links, Some(rtr)),
        None => None,
    }
}

/// The command that a word is with a port, a number of workers and a number of links.
#[tactic(auto, unfolding(crate::specs::Serving::serve_by))]
fn serve_by(word: &[u8], port: &[u8], workers: &[u8], links: &[u8]) -> Option<Command>
    ensures command { result ≡ serve_by word.now port.now workers.now links.now }
    ensures sized { IsSized result }
{
    if word == b"serve".as_slice() {
        serve_with(port, workers, links, None)
    } else {
        None
    }
}

/// The command that a word is with a port, a number of workers and a number of links, and then with the
/// word `rtr`, a port and a number of links.
#[tactic(auto, unfolding(crate::specs::Serving::serve_rtr_by))]
fn serve_rtr_by(
    word: &[u8],
    port: &[u8],
    workers: &[u8],
    links: &[u8],
    second: &[u8],
    rtr: &[u8],
    routers: &[u8],
) -> Option<Command>
    ensures command { result
        ≡ serve_rtr_by word.now port.now workers.now links.now second.now rtr.now routers.now }
    ensures sized { IsSized result }
{
    if word == b"serve".as_slice() && second == b"rtr".as_slice() {
        serve_both(port, workers, links, rtr, routers)
    } else {
        None
    }
}

/// The command that a word, a set name, a family and a listing are, or a word, a port, a number of workers
/// and a number of links.
#[tactic(auto, using(crate::proofs::Expanding::asked))]
fn command_of(
    alloc: Global,
    word: &[u8],
    set: &[u8],
    family: &[u8],
    listing: &[u8],
) -> Result<Option<Command>, AllocError>
    ensures ok { IfOk result (λ c. c ≡ command_of word.now set.now family.now listing.now) }
    ensures err { IfErr result (λ e. IsQuestion (command_of word.now set.now family.now listing.now)) }
    ensures sized { IfOk result IsSized }
{
    if word != b"expand".as_slice() {
        return Ok(serve_by(word, set, family, listing));
    }
    match expand_with(alloc, set, family, listing)? {
        Some(question) => Ok(Some(ask(question))),
        None => Ok(None),
    }
}

/// The command that words are.
fn command_in(alloc: Global, words: &[&str]) -> Result<Option<Command>, AllocError>
    ensures ok { IfOk result (λ c. c ≡ command_in (map (λ w. w.now) words.now)) }
    ensures err { IfErr result (λ e. IsQuestion (command_in (map (λ w. w.now) words.now))) }
    ensures sized { IfOk result IsSized }
{
    match words {
        [word] => Ok(command_by(word.as_bytes())),
        [word, other] => command_with(alloc, word.as_bytes(), other.as_bytes()),
        [word, set, family, listing] => command_of(
            alloc,
            word.as_bytes(),
            set.as_bytes(),
            family.as_bytes(),
            listing.as_bytes(),
        ),
        [word, port, workers, links, second, rtr, routers] => Ok(serve_rtr_by(
            word.as_bytes(),
            port.as_bytes(),
            workers.as_bytes(),
            links.as_bytes(),
            second.as_bytes(),
            rtr.as_bytes(),
            routers.as_bytes(),
        )),
        _ => Ok(None),
    }
}

/// What a question answers of an input.
#[tactic(auto, using(crate::proofs::Refusals::refusals))]
fn answer(alloc: Global, question: Question, input: &[u8]) -> Result<Vec<u8>, NoAnswer>
    ensures output { IfOk result (λ out. Answers question input.now (Ok out.items)) }
    ensures refusal { IfErr result (IsNoAnswer question input.now) }
{
    match question {
        Question::Check => check(alloc, input),
        Question::Eval => eval(alloc, input),
        Question::Fate => fate(alloc, input),
        Question::Generate { router } => router_text(alloc, router, input),
        Question::Export { second } => export(alloc, second, input),
        Question::Expand {
            set,
            family,
            listing,
        } => expansion(alloc, set, family, listing, input),
    }
}

/// The cause of an input that is longer than the limit.
pub(crate) fn too_long() -> Cause
    ensures { result ≡ too_long }
{
    Cause {
        code: Code::U5,
        place: Place::Byte {
            at: INPUT_LIMIT as u64,
        },
    }
}

/// Reads all of the input, and writes what the question answers of it.
fn run_question<S: Source, K: Sink>(
    alloc: Global,
    question: Question,
    input: &mut S,
    output: &mut K,
) -> End
    ensures { QuestionEnds question (record { bytes = S.left input.old; faults = S.read_faults input.old })
        (record { bytes = S.left input.new; faults = S.read_faults input.new })
        (record { bytes = K.written output.old; faults = K.write_faults output.old })
        (record { bytes = K.written output.new; faults = K.write_faults output.new }) result }
{
    let bytes = match read_whole(alloc, input, INPUT_LIMIT) {
        Ok(bytes) => bytes,
        Err(WholeFault::Failed) => return End::ReadFault,
        Err(WholeFault::TooLong) => return End::BadInput { cause: too_long() },
        Err(WholeFault::NoMemory) => return End::NoMemory,
    };
    let text = match answer(alloc, question, bytes.as_slice()) {
        Ok(text) => text,
        Err(NoAnswer::Bad { cause }) => return End::BadInput { cause },
        Err(NoAnswer::Unknown { router }) => return End::UnknownRouter { router },
        Err(NoAnswer::BadObjects { cause }) => return End::BadObjects { cause },
        Err(NoAnswer::NoMemory) => return End::NoMemory,
    };
    match write_all(output, text.as_slice()) {
        Ok(()) => End::Done,
        Err(_) => End::WriteFault,
    }
}

/// Runs the command that the words are, if they are one, and it doesn't wait.
fn run_words<S: Source, K: Sink, P: Keeper, C: Clock>(
    alloc: Global,
    words: &[&str],
    input: &mut S,
    output: &mut K,
    keeper: &mut P,
    clock: &mut C,
) -> Result<End, Waiting>
    ensures ends { PlainEnds (command_in (map (λ w. w.now) words.now))
        (record { bytes = S.left input.old; faults = S.read_faults input.old })
        (record { bytes = S.left input.new; faults = S.read_faults input.new })
        (record { bytes = K.written output.old; faults = K.write_faults output.old })
        (record { bytes = K.written output.new; faults = K.write_faults output.new })
        (record { rows = P.table keeper.old; faults = P.faults keeper.old })
        (record { rows = P.table keeper.new; faults = P.faults keeper.new }) (C.given clock.old)
        (C.given clock.new) result }
    ensures sized { IfErr result (λ waiting. IsSized (Some (Waits waiting))) }
{
    match command_in(alloc, words) {
        Ok(Some(Command::Ask { question })) => Ok(run_question(alloc, question, input, output)),
        Ok(Some(Command::Ixf)) => {
            let second = clock.now();
            Ok(run_question(alloc, Question::Export { second }, input, output))
        }
        Ok(Some(Command::Restore)) => Ok(run_restore(alloc, input, output, keeper)),
        Ok(Some(Command::Dump)) => Ok(run_dump(alloc, input, output, keeper)),
        Ok(Some(Command::Upgrade)) => Ok(run_upgrade(alloc, input, output, keeper)),
        Ok(Some(Command::Demo { members })) => Ok(run_demo(alloc, output, members)),
        Ok(Some(Command::Wait { waiting })) => Err(waiting),
        Ok(None) => Ok(End::Usage),
        Err(_) => Ok(End::NoMemory),
    }
}

/// Runs the command that the words are, and gives its exit status: 0 where the work is done, 1 where the
/// words are no command, 2 where the input isn't of the command's form or is longer than 268,435,456 bytes,
/// or where whois data have no object of the set's name or more items than a list may have, 3 and 4 where a
/// read or a write failed, 5 where the keeper failed, 6 where the store's rows are no registry's, 8 where
/// memory ran out, 9 where no router has the handle, 10 where the store has the form of an older version,
/// 11 where the store that is to be filled has a row. A status other than 0 has a line on `errors`, as far
/// as that takes it. A command that waits comes back as it is; nothing is read or written then.
pub fn run_command<S: Source, K: Sink, E: Sink, P: Keeper, C: Clock>(
    alloc: Global,
    words: &[&str],
    input: &mut S,
    output: &mut K,
    errors: &mut E,
    keeper: &mut P,
    clock: &mut C,
) -> Result<u8, Waiting>
    // The run ends in a way of the command's own, which its status says; a line on the errors tells of it.
    ensures runs { CommandRuns (command_in (map (λ w. w.now) words.now))
        (record {
          input = record { bytes = S.left input.old; faults = S.read_faults input.old };
          output = record { bytes = K.written output.old; faults = K.write_faults output.old };
          errors = record { bytes = E.written errors.old; faults = E.write_faults errors.old };
          store = record { rows = P.table keeper.old; faults = P.faults keeper.old };
          second = C.given clock.old;
        })
        (record {
          input = record { bytes = S.left input.new; faults = S.read_faults input.new };
          output = record { bytes = K.written output.new; faults = K.write_faults output.new };
          errors = record { bytes = E.written errors.new; faults = E.write_faults errors.new };
          store = record { rows = P.table keeper.new; faults = P.faults keeper.new };
          second = C.given clock.new;
        }) result }

    // The words are no command exactly where the status is 1.
    ensures usage { (result ≡ Ok 1) ↔ (command_in (map (λ w. w.now) words.now) ≡ None) }
    ensures statuses { IfOk result (λ status. IsStatus (Some status)) }
    ensures sized { IfErr result (λ waiting. IsSized (Some (Waits waiting))) }
{
    let end = match run_words(alloc, words, input, output, keeper, clock) {
        Ok(end) => end,
        Err(waiting) => return Err(waiting),
    };
    let status = end.status();
    report(errors, end);
    Ok(status)
}

/// Runs the command that the words are as [`run_command`] does. None stands for a command that waits.
pub fn run_plain<S: Source, K: Sink, E: Sink, P: Keeper, C: Clock>(
    alloc: Global,
    words: &[&str],
    input: &mut S,
    output: &mut K,
    errors: &mut E,
    keeper: &mut P,
    clock: &mut C,
) -> Option<u8>
    ensures runs { PlainRuns (command_in (map (λ w. w.now) words.now))
        (record {
          input = record { bytes = S.left input.old; faults = S.read_faults input.old };
          output = record { bytes = K.written output.old; faults = K.write_faults output.old };
          errors = record { bytes = E.written errors.old; faults = E.write_faults errors.old };
          store = record { rows = P.table keeper.old; faults = P.faults keeper.old };
          second = C.given clock.old;
        })
        (record {
          input = record { bytes = S.left input.new; faults = S.read_faults input.new };
          output = record { bytes = K.written output.new; faults = K.write_faults output.new };
          errors = record { bytes = E.written errors.new; faults = E.write_faults errors.new };
          store = record { rows = P.table keeper.new; faults = P.faults keeper.new };
          second = C.given clock.new;
        }) result }
    ensures usage { (result ≡ Some 1) ↔ (command_in (map (λ w. w.now) words.now) ≡ None) }
    ensures statuses { IsSome result → IsStatus result }
{
    match run_command(alloc, words, input, output, errors, keeper, clock) {
        Ok(status) => Some(status),
        Err(_) => None,
    }
}

// The top call.
ghost use Rattle.std.specs.Prelude.{◌≡◌, ◌≢◌, ◌<◌, ◌≤◌, List, ℕ, IfOk, OnErr, IsErrOf, Err, Ok, Some, None, IfSome, length, true, false};
ghost use Rattle.std.specs.Bool.{MatchBool};
ghost use Rattle.std.specs.Io.KnownBytes.{IsAtEnd};
ghost use Rattle.gw_base.specs.Outside.{Rose};
ghost use Rattle.gw_base.specs.Whole.{AppendsFront};
ghost use Rattle.gateway_cli.specs.Check.{check_of};
ghost use Rattle.command_words.specs.Commands.{command_of, IsWithin};
ghost use Rattle.gateway_cli.specs.Commands.{Outcome, OutcomeFront, TellsLoadToFail, is_plain, is_play, served, administered, reads_input};
ghost use Rattle.gateway_cli.specs.Admin.{Administered, AdminWantsMemory, AdminFaulted};
ghost use Rattle.play_script.specs.Play.{Played, PlayedFront, FailsToLoad, SaysFront, is_command_status, session_limits};
ghost use Rattle.gateway_cli.specs.Render.{render_of};
ghost use Rattle.gateway_cli.specs.Top.{OfTold, Answered, Says, Faulted, ServeFaulted};
ghost use Rattle.serve_command.specs.Serving.{Ends};
ghost use Rattle.serve_command.specs.Shelves.{Shelves, AllIsBack};

use crate::about::{say_help, say_usage, say_version};
use crate::administering::admin;
use crate::check::check_within;
use crate::command::{asked_in, store_in};
use crate::files::{document_in, files_in};
use crate::limits::{SCRIPT_LIMIT, SESSION_LIMITS};
use crate::loading::load;
use crate::render::judge;
use crate::say::{say, say_fault, stop_of_play};
use crate::serving::serve;
use crate::stopped::Stopped;
use book_rules::Entry;
use command_words::{Command, read_words};
use gate_ports::Port;
use gw_base::{ReadAll, Sink, Source, Text, read_all};
use outside_core::Outside;
use play_script::play_within;
use std::alloc::Global;
use std::sync::Wait;
use std::thread::Threads;

// Plays a script that was read.
fn play_script<W: Sink, R: Wait>(
    rt: &R,
    alloc: Global,
    script: &[u8],
    output: &mut W,
) -> Result<u8, Stopped>
    requires { length script.now ≤ 67108864 }
    ensures answered { IfOk result (Says (W.written output.old) (W.written output.new) (Played script.now)) }
    ensures front { OnErr result (SaysFront (W.written output.old) (W.written output.new) (PlayedFront script.now)) }
    ensures known { IfOk result (λ status. is_command_status status ≡ true) }
    ensures input { result ≢ Err Stopped.Input }
    ensures file { result ≢ Err Stopped.File }
    ensures keeper { IsErrOf result Stopped.Keeper → FailsToLoad script.now }
    ensures output { IsErrOf result Stopped.Output → Rose (W.faults output.old) (W.faults output.new) }
    ensures loaded { IsErrOf result Stopped.Output → FailsToLoad script.now → ⊥ }
{
    match play_within(rt, alloc, SESSION_LIMITS, script, output) {
        Ok(status) => Ok(status),
        Err(stop) => Err(stop_of_play(stop)),
    }
}

// Says that a script is longer than its limit.
fn say_too_long<W: Sink>(output: &mut W) -> Result<u8, Stopped>
    ensures answered { (script : List ℕ) → 67108864 < length script → IfOk result (Says (W.written output.old) (W.written output.new) (Played script)) }
    ensures front { (script : List ℕ) → 67108864 < length script → OnErr result (SaysFront (W.written output.old) (W.written output.new) (PlayedFront script)) }
    ensures known { IfOk result (λ status. status ≡ 1) }
    ensures input { result ≢ Err Stopped.Input }
    ensures file { result ≢ Err Stopped.File }
    ensures keeper { result ≢ Err Stopped.Keeper }
    ensures output { IsErrOf result Stopped.Output → Rose (W.faults output.old) (W.faults output.new) }
{
    say(output, b"refused TooLong\n", 1)
}

// Reads a script to its end and plays it.
fn play<I: Source, W: Sink, R: Wait>(
    rt: &R,
    alloc: Global,
    input: &mut I,
    output: &mut W,
) -> Result<u8, Stopped>
    ensures answered { IfOk result (λ status. OfTold (I.left input.old) (λ script. Says (W.written output.old) (W.written output.new) (Played script) status)) }
    ensures front { OnErr result (OfTold (I.left input.old) (λ script. SaysFront (W.written output.old) (W.written output.new) (PlayedFront script))) }
    ensures known { IfOk result (λ status. is_command_status status ≡ true) }
    ensures read { IfOk result (λ status. status ≡ 0 → IsAtEnd (I.left input.new)) }
    ensures input { IsErrOf result Stopped.Input → Rose (I.faults input.old) (I.faults input.new) }
    ensures file { result ≢ Err Stopped.File }
    ensures keeper { IsErrOf result Stopped.Keeper → OfTold (I.left input.old) (λ script. FailsToLoad script × SaysFront (W.written output.old) (W.written output.new) (PlayedFront script)) }
    ensures before_keeper { IsErrOf result Stopped.Keeper → I.faults input.new ≡ I.faults input.old }
    ensures output { IsErrOf result Stopped.Output → Rose (W.faults output.old) (W.faults output.new) × (I.faults input.new ≡ I.faults input.old) }
    ensures loaded { IsErrOf result Stopped.Output → OfTold (I.left input.old) (λ script. (FailsToLoad script → ⊥) × SaysFront (W.written output.old) (W.written output.new) (PlayedFront script)) }
{
    match read_all(alloc, input, SCRIPT_LIMIT) {
        Ok(script) => play_script(rt, alloc, &script, output),
        Err(ReadAll::TooLong) => say_too_long(output),
        Err(ReadAll::Fault) => Err(Stopped::Input),
        Err(ReadAll::Memory) => Err(Stopped::Memory),
    }
}

// Asks for both files, and then renders the one over the other.
fn render<W: Sink, O: Outside<Entry>>(
    alloc: Global,
    template: &str,
    body: &str,
    output: &mut W,
    outside: &mut O,
) -> Result<u8, Stopped>
    ensures answered { IfOk result (λ status. OfTold (O.files outside.old) (λ files. Answered (W.written output.old) (W.written output.new) (render_of files template.now body.now) status)) }
    ensures front { OnErr result (OfTold (O.files outside.old) (λ files. AppendsFront (W.written output.old) (W.written output.new) (render_of files template.now body.now).text)) }
    ensures known { IfOk result (λ status. is_command_status status ≡ true) }
    ensures input { result ≢ Err Stopped.Input }
    ensures file { IsErrOf result Stopped.File → Rose (O.faults outside.old) (O.faults outside.new) }
    ensures keeper { result ≢ Err Stopped.Keeper }
    ensures output { IsErrOf result Stopped.Output → Rose (W.faults output.old) (W.faults output.new) × (O.faults outside.new ≡ O.faults outside.old) }
    ensures keepers { O.keepers_out outside.new ≡ O.keepers_out outside.old }
    ensures lanes { O.lanes_out outside.new ≡ O.lanes_out outside.old }
{
    let (template, body) = files_in(alloc, outside, template, body)?;
    let shown = judge(alloc, &template, &body)?;
    say(output, shown.text.as_str().as_bytes(), shown.status)
}

// Asks for the file of a document, and then reads it.
fn check<W: Sink, O: Outside<Entry>>(
    alloc: Global,
    name: &str,
    output: &mut W,
    outside: &mut O,
) -> Result<u8, Stopped>
    ensures answered { IfOk result (λ status. OfTold (O.files outside.old) (λ files. Answered (W.written output.old) (W.written output.new) (check_of files name.now) status)) }
    ensures front { OnErr result (OfTold (O.files outside.old) (λ files. AppendsFront (W.written output.old) (W.written output.new) (check_of files name.now).text)) }
    ensures known { IfOk result (λ status. is_command_status status ≡ true) }
    ensures input { result ≢ Err Stopped.Input }
    ensures file { IsErrOf result Stopped.File → Rose (O.faults outside.old) (O.faults outside.new) }
    ensures keeper { result ≢ Err Stopped.Keeper }
    ensures output { IsErrOf result Stopped.Output → Rose (W.faults output.old) (W.faults output.new) × (O.faults outside.new ≡ O.faults outside.old) }
    ensures keepers { O.keepers_out outside.new ≡ O.keepers_out outside.old }
    ensures lanes { O.lanes_out outside.new ≡ O.lanes_out outside.old }
{
    let document = document_in(alloc, outside, name)?;
    let shown = check_within(alloc, &document)?;
    say(output, shown.text.as_str().as_bytes(), shown.status)
}

// Does what is asked for, where that is neither to serve nor to administer.
fn respond<I: Source, W: Sink, O: Outside<Entry>, R: Wait>(
    rt: &R,
    alloc: Global,
    command: &Option<Command>,
    input: &mut I,
    output: &mut W,
    outside: &mut O,
) -> Result<u8, Stopped>
    requires within { IfSome command.now IsWithin }
    ensures answered { IfOk result (λ status. OfTold (I.left input.old) (λ script. OfTold (O.files outside.old) (λ files.
        Says (W.written output.old) (W.written output.new) (Outcome command.now script files) status))) }
    ensures front { OnErr result (OfTold (I.left input.old) (λ script. OfTold (O.files outside.old) (λ files.
        SaysFront (W.written output.old) (W.written output.new) (OutcomeFront command.now script files)))) }
    ensures known { IfOk result (λ status. MatchBool (is_plain command.now) (is_command_status status ≡ true) (status ≡ 2)) }
    ensures read { IfOk result (λ status. status ≡ 0 → is_play command.now ≡ true → IsAtEnd (I.left input.new)) }
    ensures unread { is_play command.now ≡ false → I.left input.new ≡ I.left input.old }
    ensures input { IsErrOf result Stopped.Input → Rose (I.faults input.old) (I.faults input.new) }
    ensures file { IsErrOf result Stopped.File → Rose (O.faults outside.old) (O.faults outside.new) × (I.faults input.new ≡ I.faults input.old) }
    ensures keeper { IsErrOf result Stopped.Keeper → OfTold (I.left input.old) (λ script. OfTold (O.files outside.old) (λ files.
        TellsLoadToFail command.now script × SaysFront (W.written output.old) (W.written output.new) (OutcomeFront command.now script files))) }
    ensures before_keeper { IsErrOf result Stopped.Keeper → (I.faults input.new ≡ I.faults input.old) × (O.faults outside.new ≡ O.faults outside.old) }
    ensures output { IsErrOf result Stopped.Output → Rose (W.faults output.old) (W.faults output.new) × (I.faults input.new ≡ I.faults input.old) × (O.faults outside.new ≡ O.faults outside.old) }
    ensures loaded { IsErrOf result Stopped.Output → OfTold (I.left input.old) (λ script. OfTold (O.files outside.old) (λ files.
        (TellsLoadToFail command.now script → ⊥) × SaysFront (W.written output.old) (W.written output.new) (OutcomeFront command.now script files))) }
    ensures keepers { O.keepers_out outside.new ≡ O.keepers_out outside.old }
    ensures lanes { O.lanes_out outside.new ≡ O.lanes_out outside.old }
{
    match command {
        Some(Command::Help) => say_help(output),
        Some(Command::Version) => say_version(output),
        Some(Command::Play) => play(rt, alloc, input, output),
        Some(Command::Render { template, body }) => {
            render(alloc, template.as_str(), body.as_str(), output, outside)
        }
        Some(Command::Check { name }) => check(alloc, name.as_str(), output, outside),
        Some(Command::Load { seed, calls }) => load(rt, alloc, *seed, *calls, output),
        _ => say_usage(output),
    }
}

// Does what is asked for, where that is neither to serve nor to administer, says why it stops where it does, and answers the status.
fn answer<I: Source, W: Sink, O: Outside<Entry>, R: Wait>(
    rt: &R,
    alloc: Global,
    command: &Option<Command>,
    input: &mut I,
    output: &mut W,
    outside: &mut O,
) -> u8
    requires within { IfSome command.now IsWithin }
    ensures exact { result ≢ 3 → result ≢ 5 → OfTold (I.left input.old) (λ script. OfTold (O.files outside.old) (λ files.
        Says (W.written output.old) (W.written output.new) (Outcome command.now script files) result)) }
    ensures memory { result ≡ 5 → OfTold (I.left input.old) (λ script. OfTold (O.files outside.old) (λ files.
        SaysFront (W.written output.old) (W.written output.new) (OutcomeFront command.now script files))) }
    ensures fault { result ≡ 3 → OfTold (I.left input.old) (λ script. OfTold (O.files outside.old) (λ files.
        Faulted (W.written output.old) (W.written output.new) (OutcomeFront command.now script files)
        (record { before = I.faults input.old; now = I.faults input.new })
        (record { before = O.faults outside.old; now = O.faults outside.new })
        (record { before = W.faults output.old; now = W.faults output.new })
        (TellsLoadToFail command.now script))) }
    ensures usage { result ≡ 2 → is_plain command.now ≡ false }
    ensures other { is_plain command.now ≡ false → (result ≢ 0) × (result ≢ 1) × (result ≢ 4) }
    ensures read { result ≡ 0 → is_play command.now ≡ true → IsAtEnd (I.left input.new) }
    ensures unread { is_play command.now ≡ false → I.left input.new ≡ I.left input.old }
    ensures known { result ≤ 5 }
    ensures keepers { O.keepers_out outside.new ≡ O.keepers_out outside.old }
    ensures lanes { O.lanes_out outside.new ≡ O.lanes_out outside.old }
{
    match respond(rt, alloc, command, input, output, outside) {
        Ok(status) => status,
        Err(Stopped::Memory) => 5,
        Err(Stopped::Input) => {
            say_fault(output, b"fault input\n");
            3
        }
        Err(Stopped::File) => {
            say_fault(output, b"fault file\n");
            3
        }
        Err(Stopped::Keeper) => {
            say_fault(output, b"fault keeper\n");
            3
        }
        Err(Stopped::Output) => {
            say_fault(output, b"fault output\n");
            3
        }
    }
}

// Does what is asked for, says why it stops where it does, and answers the status.
fn carry_out<I: Source, W: Sink, O: Outside<Entry>, R: Threads + Wait + Sync>(
    rt: &R,
    alloc: Global,
    command: &Option<Command>,
    input: &mut I,
    output: &mut W,
    outside: &mut O,
) -> u8
where
    <O::Door as Port>::Link: Send,
    requires within { IfSome command.now IsWithin }
    ensures exact { served command.now ≡ None → administered command.now ≡ None → result ≢ 3 → result ≢ 5 → OfTold (I.left input.old) (λ script. OfTold (O.files outside.old) (λ files.
        Says (W.written output.old) (W.written output.new) (Outcome command.now script files) result)) }
    ensures memory { served command.now ≡ None → administered command.now ≡ None → result ≡ 5 → OfTold (I.left input.old) (λ script. OfTold (O.files outside.old) (λ files.
        SaysFront (W.written output.old) (W.written output.new) (OutcomeFront command.now script files))) }
    ensures fault { served command.now ≡ None → administered command.now ≡ None → result ≡ 3 → OfTold (I.left input.old) (λ script. OfTold (O.files outside.old) (λ files.
        Faulted (W.written output.old) (W.written output.new) (OutcomeFront command.now script files)
        (record { before = I.faults input.old; now = I.faults input.new })
        (record { before = O.faults outside.old; now = O.faults outside.new })
        (record { before = W.faults output.old; now = W.faults output.new })
        (TellsLoadToFail command.now script))) }
    ensures serves { IfSome (served command.now) (λ asked. result ≢ 3 → result ≢ 5 → Ends session_limits asked.0 asked.2 (record { stores = O.stores outside.old; waiting = O.waiting outside.old; kept_back = O.kept_back outside.old; returned = O.returned outside.old; sessions = O.Archive.sessions outside.old; faults = O.faults outside.old; keepers_out = O.keepers_out outside.old; lanes_out = O.lanes_out outside.old }) (record { stores = O.stores outside.new; waiting = O.waiting outside.new; kept_back = O.kept_back outside.new; returned = O.returned outside.new; sessions = O.Archive.sessions outside.new; faults = O.faults outside.new; keepers_out = O.keepers_out outside.new; lanes_out = O.lanes_out outside.new }) (W.written output.old) (W.written output.new) result) }
    ensures serve_fault { IfSome (served command.now) (λ asked. result ≡ 3 → ServeFaulted session_limits asked.0 asked.2 (record { stores = O.stores outside.old; waiting = O.waiting outside.old; kept_back = O.kept_back outside.old; returned = O.returned outside.old; sessions = O.Archive.sessions outside.old; faults = O.faults outside.old; keepers_out = O.keepers_out outside.old; lanes_out = O.lanes_out outside.old }) (record { stores = O.stores outside.new; waiting = O.waiting outside.new; kept_back = O.kept_back outside.new; returned = O.returned outside.new; sessions = O.Archive.sessions outside.new; faults = O.faults outside.new; keepers_out = O.keepers_out outside.new; lanes_out = O.lanes_out outside.new }) (record { before = W.faults output.old; now = W.faults output.new }) (W.written output.old) (W.written output.new)) }
    ensures administers { IfSome (administered command.now) (λ store. result ≢ 3 → result ≢ 5 → OfTold (I.left input.old) (λ lines. Administered store lines (record { stores = O.stores outside.old; waiting = O.waiting outside.old; kept_back = O.kept_back outside.old; returned = O.returned outside.old; sessions = O.Archive.sessions outside.old; faults = O.faults outside.old; keepers_out = O.keepers_out outside.old; lanes_out = O.lanes_out outside.old }) (record { stores = O.stores outside.new; waiting = O.waiting outside.new; kept_back = O.kept_back outside.new; returned = O.returned outside.new; sessions = O.Archive.sessions outside.new; faults = O.faults outside.new; keepers_out = O.keepers_out outside.new; lanes_out = O.lanes_out outside.new }) (W.written output.old) (W.written output.new) result)) }
    ensures admin_memory { IfSome (administered command.now) (λ store. result ≡ 5 → OfTold (I.left input.old) (λ lines. AdminWantsMemory store lines (record { stores = O.stores outside.old; waiting = O.waiting outside.old; kept_back = O.kept_back outside.old; returned = O.returned outside.old; sessions = O.Archive.sessions outside.old; faults = O.faults outside.old; keepers_out = O.keepers_out outside.old; lanes_out = O.lanes_out outside.old }) (record { stores = O.stores outside.new; waiting = O.waiting outside.new; kept_back = O.kept_back outside.new; returned = O.returned outside.new; sessions = O.Archive.sessions outside.new; faults = O.faults outside.new; keepers_out = O.keepers_out outside.new; lanes_out = O.lanes_out outside.new }) (W.written output.old) (W.written output.new))) }
    ensures admin_fault { IfSome (administered command.now) (λ store. result ≡ 3 → AdminFaulted store (I.left input.old) (record { stores = O.stores outside.old; waiting = O.waiting outside.old; kept_back = O.kept_back outside.old; returned = O.returned outside.old; sessions = O.Archive.sessions outside.old; faults = O.faults outside.old; keepers_out = O.keepers_out outside.old; lanes_out = O.lanes_out outside.old }) (record { stores = O.stores outside.new; waiting = O.waiting outside.new; kept_back = O.kept_back outside.new; returned = O.returned outside.new; sessions = O.Archive.sessions outside.new; faults = O.faults outside.new; keepers_out = O.keepers_out outside.new; lanes_out = O.lanes_out outside.new }) (record { before = I.faults input.old; now = I.faults input.new }) (record { before = W.faults output.old; now = W.faults output.new }) (W.written output.old) (W.written output.new)) }
    ensures given_back { AllIsBack (record { stores = O.stores outside.old; waiting = O.waiting outside.old; kept_back = O.kept_back outside.old; returned = O.returned outside.old; sessions = O.Archive.sessions outside.old; faults = O.faults outside.old; keepers_out = O.keepers_out outside.old; lanes_out = O.lanes_out outside.old }) (record { stores = O.stores outside.new; waiting = O.waiting outside.new; kept_back = O.kept_back outside.new; returned = O.returned outside.new; sessions = O.Archive.sessions outside.new; faults = O.faults outside.new; keepers_out = O.keepers_out outside.new; lanes_out = O.lanes_out outside.new }) }
    ensures usage { result ≡ 2 → command.now ≡ None }
    ensures other { command.now ≡ None → (result ≢ 0) × (result ≢ 1) × (result ≢ 4) }
    ensures read { result ≡ 0 → reads_input command.now ≡ true → IsAtEnd (I.left input.new) }
    ensures unread { reads_input command.now ≡ false → I.left input.new ≡ I.left input.old }
    ensures known { result ≤ 5 }
{
    if let Some(asked) = asked_in(command) {
        return serve(rt, alloc, &asked, output, outside);
    }
    match store_in(command) {
        Some(store) => admin(alloc, store, input, output, outside),
        None => answer(rt, alloc, command, input, output, outside),
    }
}

/// Does what the words say, and answers the status: 0 done, 1 a line, the script, a template, a document or a row of a store was
/// refused or a render stopped, 2 the words are none of a command, 3 the input, the output, a file, a keeper or a port failed, or a
/// script told its keeper's load to fail, 4 the session is full, 5 memory is wanting. The words are those behind the program's name.
pub fn run<I: Source, W: Sink, O: Outside<Entry>, R: Threads + Wait + Sync>(
    rt: &R,
    alloc: Global,
    words: &[Text],
    input: &mut I,
    output: &mut W,
    outside: &mut O,
) -> u8
where
    <O::Door as Port>::Link: Send,
    // Of words other than `serve` and `admin`, what is written and answered is the outcome of the words, of the input and of the files.
    ensures exact { served (command_of words.now) ≡ None → administered (command_of words.now) ≡ None → result ≢ 3 → result ≢ 5 → OfTold (I.left input.old) (λ script. OfTold (O.files outside.old) (λ files.
        Says (W.written output.old) (W.written output.new) (Outcome (command_of words.now) script files) result)) }

    // Where memory is wanting, a front of it is written.
    ensures memory { served (command_of words.now) ≡ None → administered (command_of words.now) ≡ None → result ≡ 5 → OfTold (I.left input.old) (λ script. OfTold (O.files outside.old) (λ files.
        SaysFront (W.written output.old) (W.written output.new) (OutcomeFront (command_of words.now) script files))) }

    // A fault comes only where a count rose in this call, of the input, the files or the output, or where the script told the
    // keeper's load to fail: the first in the order in which they come is the cause, and the load comes before the output. A front is written, and then a front of
    // the one line that names it, also where that line's own write fails.
    ensures fault { served (command_of words.now) ≡ None → administered (command_of words.now) ≡ None → result ≡ 3 → OfTold (I.left input.old) (λ script. OfTold (O.files outside.old) (λ files.
        Faulted (W.written output.old) (W.written output.new) (OutcomeFront (command_of words.now) script files)
        (record { before = I.faults input.old; now = I.faults input.new })
        (record { before = O.faults outside.old; now = O.faults outside.new })
        (record { before = W.faults output.old; now = W.faults output.new })
        (TellsLoadToFail (command_of words.now) script))) }

    // Of `serve`, the status and what is written are those of sessions that follow each other, or of a bad row of the store.
    ensures serves { IfSome (served (command_of words.now)) (λ asked. result ≢ 3 → result ≢ 5 → Ends session_limits asked.0 asked.2 (record { stores = O.stores outside.old; waiting = O.waiting outside.old; kept_back = O.kept_back outside.old; returned = O.returned outside.old; sessions = O.Archive.sessions outside.old; faults = O.faults outside.old; keepers_out = O.keepers_out outside.old; lanes_out = O.lanes_out outside.old }) (record { stores = O.stores outside.new; waiting = O.waiting outside.new; kept_back = O.kept_back outside.new; returned = O.returned outside.new; sessions = O.Archive.sessions outside.new; faults = O.faults outside.new; keepers_out = O.keepers_out outside.new; lanes_out = O.lanes_out outside.new }) (W.written output.old) (W.written output.new) result) }

    // A fault comes only where a count rose in this call, of the outside or of the output, or where a next session did not start, and
    // the line behind what was written names it.
    ensures serve_fault { IfSome (served (command_of words.now)) (λ asked. result ≡ 3 → ServeFaulted session_limits asked.0 asked.2 (record { stores = O.stores outside.old; waiting = O.waiting outside.old; kept_back = O.kept_back outside.old; returned = O.returned outside.old; sessions = O.Archive.sessions outside.old; faults = O.faults outside.old; keepers_out = O.keepers_out outside.old; lanes_out = O.lanes_out outside.old }) (record { stores = O.stores outside.new; waiting = O.waiting outside.new; kept_back = O.kept_back outside.new; returned = O.returned outside.new; sessions = O.Archive.sessions outside.new; faults = O.faults outside.new; keepers_out = O.keepers_out outside.new; lanes_out = O.lanes_out outside.new }) (record { before = W.faults output.old; now = W.faults output.new }) (W.written output.old) (W.written output.new)) }

    // Of `admin`, the status and what is written are what the lines of the input come to over the store's tables, or a bad row of them.
    ensures administers { IfSome (administered (command_of words.now)) (λ store. result ≢ 3 → result ≢ 5 → OfTold (I.left input.old) (λ lines. Administered store lines (record { stores = O.stores outside.old; waiting = O.waiting outside.old; kept_back = O.kept_back outside.old; returned = O.returned outside.old; sessions = O.Archive.sessions outside.old; faults = O.faults outside.old; keepers_out = O.keepers_out outside.old; lanes_out = O.lanes_out outside.old }) (record { stores = O.stores outside.new; waiting = O.waiting outside.new; kept_back = O.kept_back outside.new; returned = O.returned outside.new; sessions = O.Archive.sessions outside.new; faults = O.faults outside.new; keepers_out = O.keepers_out outside.new; lanes_out = O.lanes_out outside.new }) (W.written output.old) (W.written output.new) result)) }

    // Where memory is wanting, some of the lines, from the first on, were carried out, and a front of what they print was written.
    ensures admin_memory { IfSome (administered (command_of words.now)) (λ store. result ≡ 5 → OfTold (I.left input.old) (λ lines. AdminWantsMemory store lines (record { stores = O.stores outside.old; waiting = O.waiting outside.old; kept_back = O.kept_back outside.old; returned = O.returned outside.old; sessions = O.Archive.sessions outside.old; faults = O.faults outside.old; keepers_out = O.keepers_out outside.old; lanes_out = O.lanes_out outside.old }) (record { stores = O.stores outside.new; waiting = O.waiting outside.new; kept_back = O.kept_back outside.new; returned = O.returned outside.new; sessions = O.Archive.sessions outside.new; faults = O.faults outside.new; keepers_out = O.keepers_out outside.new; lanes_out = O.lanes_out outside.new }) (W.written output.old) (W.written output.new))) }

    // A fault comes only where a count rose in this call, of the input, of the outside or of the output.
    ensures admin_fault { IfSome (administered (command_of words.now)) (λ store. result ≡ 3 → AdminFaulted store (I.left input.old) (record { stores = O.stores outside.old; waiting = O.waiting outside.old; kept_back = O.kept_back outside.old; returned = O.returned outside.old; sessions = O.Archive.sessions outside.old; faults = O.faults outside.old; keepers_out = O.keepers_out outside.old; lanes_out = O.lanes_out outside.old }) (record { stores = O.stores outside.new; waiting = O.waiting outside.new; kept_back = O.kept_back outside.new; returned = O.returned outside.new; sessions = O.Archive.sessions outside.new; faults = O.faults outside.new; keepers_out = O.keepers_out outside.new; lanes_out = O.lanes_out outside.new }) (record { before = I.faults input.old; now = I.faults input.new }) (record { before = W.faults output.old; now = W.faults output.new }) (W.written output.old) (W.written output.new)) }

    // All that the outside lent is given back.
    ensures given_back { AllIsBack (record { stores = O.stores outside.old; waiting = O.waiting outside.old; kept_back = O.kept_back outside.old; returned = O.returned outside.old; sessions = O.Archive.sessions outside.old; faults = O.faults outside.old; keepers_out = O.keepers_out outside.old; lanes_out = O.lanes_out outside.old }) (record { stores = O.stores outside.new; waiting = O.waiting outside.new; kept_back = O.kept_back outside.new; returned = O.returned outside.new; sessions = O.Archive.sessions outside.new; faults = O.faults outside.new; keepers_out = O.keepers_out outside.new; lanes_out = O.lanes_out outside.new }) }

    // Words of no command, and no others, are told so.
    ensures usage { result ≡ 2 → command_of words.now ≡ None }
    ensures other { command_of words.now ≡ None → (result ≢ 0) × (result ≢ 1) × (result ≢ 4) }

    // At status 0 of `play` and of `admin` the end of the input was reached; no other command reads of it.
    ensures read { result ≡ 0 → reads_input (command_of words.now) ≡ true → IsAtEnd (I.left input.new) }
    ensures unread { reads_input (command_of words.now) ≡ false → I.left input.new ≡ I.left input.old }

    // No other status is answered.
    ensures known { result ≤ 5 }
{
    match read_words(alloc, words) {
        Ok(command) => carry_out(rt, alloc, &command, input, output, outside),
        Err(_) => 5,
    }
}

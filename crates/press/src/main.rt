// The station as a tool: commands from standard input or from files, labels as picture files, and a store that lasts.
//
//     press [-rows N] [-font F] [-out PREFIX] [-store FILE] [-zone MINUTES] [-noclock] [-quiet] [FILE ..]
//     press [-rows N] [-store FILE] [-quiet] -fits form NAME | picture NAME SIZE
//     press [-rows N] [-quiet] -repair -store FILE
//
// It is thin: what a command does is crate `station`, what is said and what the command line is crate `press_settings`, how the store lasts crate
// `press_store`, how the clock goes crate `press_clock`, how commands are read crate `press_input`, how labels become files crate `press_labels`, the
// question of the second line crate `press_fits`, and the repair of the third crate `press_repair`. Here is the room that they are lent, and whose turn it is.
#![tactic(auto)]

ghost use Rattle.std.specs.Prelude.{◌≡◌, length};

use ground::front;
use lasting::DIRECTORY_BYTES;
use lent::BYTES_OF_VALUES;
use press_input::Step;
use press_settings::{Machine, Settings, Task, Told, saying};
use press_store::{Run, rooms};
use store::MOST_PORTIONS;

// Room for what is read and not yet done: 65,536 zeros, of which only the number is promised.
fn window_room() -> [u8; 65536]
    ensures { 65536 ≡ length result }
{
    [0; 65536]
}

// One turn: the clock is moved, then a label where one is owed, else a step towards the next command, and the command once it is at hand. Waiting for input ends a
// turn, so that what comes is done at the moment at which it came.
fn turn(
    rt: &impl Machine,
    s: Settings,
    run: &mut Run,
    font: &[u8],
    background: &mut [u8],
    store: &mut [u8],
    links: &mut [u16],
    directory: &mut [u8],
    values: &mut [u8],
    window: &mut [u8],
    file: &mut [u8],
) -> Result<Step, Told> {
    press_clock::tick(rt, s, run);
    let session = run.session;
    if 0 < session.owed {
        press_labels::one(
            rt, s, run, font, background, store, links, directory, values, file,
        )?;
        return Ok(Step::Onward);
    }
    let step = press_input::ahead(rt, s, run, window)?;
    if step == Step::Command {
        press_input::command(
            rt, s, run, font, background, store, links, directory, values, window, file,
        )?;
    }
    Ok(step)
}

// Turns until all input is at its end.
fn turns(
    rt: &impl Machine,
    s: Settings,
    run: &mut Run,
    font: &[u8],
    background: &mut [u8],
    store: &mut [u8],
    links: &mut [u16],
    directory: &mut [u8],
    values: &mut [u8],
    file: &mut [u8],
) -> Result<(), Told> {
    let mut window = window_room();
    for _ in 0..u64::MAX {
        let step = turn(
            rt,
            s,
            run,
            font,
            background,
            store,
            links,
            directory,
            values,
            &mut window,
            file,
        )?;
        if step == Step::End {
            break;
        }
    }
    Ok(())
}

// A station opened or loaded, and run to its end, with pages of n bytes.
fn work(
    rt: &impl Machine,
    s: Settings,
    n: usize,
    known: usize,
    font: &[u8],
    file: &mut [u8],
) -> Result<(), Told> {
    let mut background = rooms::rows();
    let mut store = rooms::portions();
    let mut links = [0u16; MOST_PORTIONS];
    let mut directory = [0u8; DIRECTORY_BYTES];
    let mut values = [0u8; BYTES_OF_VALUES];
    let mut run = press_store::begin(
        rt,
        s,
        known,
        rooms::cut(&mut background, n),
        &mut store,
        &mut links,
        &mut directory,
        &mut values,
        file,
    )?;
    press_clock::start(rt, s, &mut run);
    turns(
        rt,
        s,
        &mut run,
        font,
        rooms::cut(&mut background, n),
        &mut store,
        &mut links,
        &mut directory,
        &mut values,
        file,
    )?;
    saying::sum(rt, s, run.taken, run.refused, run.labels);
    Ok(())
}

// Commands read and labels drawn, once font and files are found good, with a store or with none.
fn draw(rt: &impl Machine, s: Settings) -> Result<(), Told> {
    let mut font = [0u8; 32768];
    let n = press_settings::font(rt, s, &mut font)?;
    press_settings::readable(rt, s)?;
    let mut file = rooms::file();
    let sizes = press_store::find(rt, s, &mut file)?;
    work(rt, s, sizes.page, sizes.known, front(&font, n), &mut file)
}

// What the command line asks for.
fn run(rt: &impl Machine) -> Result<(), Told> {
    let s = press_settings::command_line(rt)?;
    match s.task {
        Task::Labels => draw(rt, s),
        Task::Answer(question) => press_fits::ask(rt, s, question),
        Task::Repair => press_repair::repair(rt, s),
    }
}

// What went wrong is told by then, and a run ends with 0 whatever it came to.
fn main(rt: HostRuntime) {
    let _ = run(&rt);
}

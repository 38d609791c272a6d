//! The command line.
use clap::{Arg, ArgAction, Command};
use framehop_cli::Result;
use std::alloc::Global;

/// What the program does.
const ABOUT: &str =
    "Unwinds the user stacks of recordings of `perf record --call-graph dwarf`, and prints folded stacks, as flame graph tools read them. Frames of the kernel are not printed. Of a core file or a minidump, prints the stack of each thread.";

/// What the files are.
const FILES: &str =
    "Recordings and folded stacks, whose stacks are printed together, or folders of recordings with names in .data; core files and minidumps, whose stacks are printed one after another; - for standard input";

/// An option of the command line.
struct CommandOption {
    name: &'static str,
    value: OptionValue,
    /// The option that has to be there, too, if one has.
    with: Option<&'static str>,
    help: &'static str,
}

/// What an option's value is, by the name that the help gives it.
enum OptionValue {
    None,
    One(&'static str),
    /// One each time that the option is given.
    Many(&'static str),
}

/// The options, in the order of the help.
const OPTIONS: [CommandOption; 27] = [
    CommandOption {
        name: "root",
        value: OptionValue::Many("DIR"),
        with: None,
        help: "Look for the files that were mapped below this folder; given several times, below one after another, and / is this machine [default: /]",
    },
    CommandOption {
        name: "exec",
        value: OptionValue::One("FILE"),
        with: None,
        help: "The main program: in the place of the mapped file that has its build id or, where no build id is known, its name",
    },
    CommandOption {
        name: "debug-dir",
        value: OptionValue::Many("DIR"),
        with: None,
        help: "Look for names in the debug files below this folder, too, as .build-id/xx/yyyy.debug, or at the path of the file with the name that its .gnu_debuglink has; may be given several times [default: /usr/lib/debug]",
    },
    CommandOption {
        name: "buildid-dir",
        value: OptionValue::One("DIR"),
        with: None,
        help: "Look for files that are not found, or are others than those that were mapped, in the copies that perf keeps below this folder [default: ~/.debug]",
    },
    CommandOption {
        name: "vdso",
        value: OptionValue::One("FILE"),
        with: None,
        help: "The vdso of the kernel that ran, of a recording without a copy of it",
    },
    CommandOption {
        name: "perf-map",
        value: OptionValue::One("DIR"),
        with: None,
        help: "The names of code that JIT compilers make, of a recording: perf-PID.map in this folder, of the user or of root [default: /tmp, where programs write it, without --root]",
    },
    CommandOption {
        name: "frames",
        value: OptionValue::None,
        with: None,
        help: "Print a block for each sample of a recording, with a line for each frame, as for each thread of a core file",
    },
    CommandOption {
        name: "explain",
        value: OptionValue::None,
        with: None,
        help: "Print a note under each frame: the unwind data or the rule by which its caller was found. Of a recording, print blocks as by --frames",
    },
    CommandOption {
        name: "sure",
        value: OptionValue::None,
        with: None,
        help: "Leave out of folded stacks what is not sure: they are cut at the first frame that no unwind data tells",
    },
    CommandOption {
        name: "limit",
        value: OptionValue::One("N"),
        with: None,
        help: "The most frames of a stack [default: 512]",
    },
    CommandOption {
        name: "comm",
        value: OptionValue::Many("NAME"),
        with: None,
        help: "Count only samples of threads of this name; it may be given several times [default: of all]",
    },
    CommandOption {
        name: "pid",
        value: OptionValue::Many("N"),
        with: None,
        help: "Count only samples of this process; it may be given several times [default: of all]",
    },
    CommandOption {
        name: "tid",
        value: OptionValue::Many("N"),
        with: None,
        help: "Count only samples of this thread; it may be given several times [default: of all]",
    },
    CommandOption {
        name: "event",
        value: OptionValue::Many("EVENT"),
        with: None,
        help: "Count only samples of this event, by its name as perf evlist prints it, or by its number from 0 on; it may be given several times [default: of all]",
    },
    CommandOption {
        name: "time",
        value: OptionValue::One("FROM,TO"),
        with: None,
        help: "Count only samples of these times, in seconds as perf script prints them; either may be left out [default: of all]",
    },
    CommandOption {
        name: "by-thread",
        value: OptionValue::None,
        with: None,
        help: "Fold the stacks of each thread apart: a line begins with NAME-PID/TID [default: with NAME]",
    },
    CommandOption {
        name: "kernel",
        value: OptionValue::None,
        with: None,
        help: "Print the frames of the kernel that a recording has, too, innermost: as NAME_[k] in folded stacks, and with ([kernel]) in blocks [default: they are left out]",
    },
    CommandOption {
        name: "kallsyms",
        value: OptionValue::One("FILE"),
        with: Some("kernel"),
        help: "The names of the kernel's functions, as /proc/kallsyms of the machine that was recorded; with --kernel [default: frames of the kernel are printed by address]",
    },
    CommandOption {
        name: "diff",
        value: OptionValue::None,
        with: None,
        help: "Compare two recordings, folded stacks or folders, OLD and NEW: print each stack of either with its two counts; with --svg draw NEW, red where a part of all grew, and blue where it shrank",
    },
    CommandOption {
        name: "demangle",
        value: OptionValue::None,
        with: None,
        help: "Print the names of C++ and Rust as in the source, by c++filt; this is done by the script framehop-stacks, and needs c++filt [default: as the symbol tables have them]",
    },
    CommandOption {
        name: "inlines",
        value: OptionValue::None,
        with: None,
        help: "Print the functions that were inlined at frames, too, by llvm-symbolizer or addr2line; this is done by the script framehop-stacks [default: only functions that have code of their own]",
    },
    CommandOption {
        name: "lines",
        value: OptionValue::None,
        with: None,
        help: "Print the functions that were inlined, as by --inlines, and lines of the source [default: no lines]",
    },
    CommandOption {
        name: "speedscope",
        value: OptionValue::None,
        with: None,
        help: "Print the folded stacks of all recordings as JSON that speedscope reads, with a number of samples as the weight of each",
    },
    CommandOption {
        name: "svg",
        value: OptionValue::None,
        with: None,
        help: "Print a flame graph of all recordings and folded stacks as an SVG, in the place of folded stacks",
    },
    CommandOption {
        name: "flame",
        value: OptionValue::None,
        with: Some("svg"),
        help: "Draw the outermost frames at the bottom [default: at the top]",
    },
    CommandOption {
        name: "title",
        value: OptionValue::One("TEXT"),
        with: None,
        help: "The title of the flame graph, or of the profile for speedscope [default: Flame Graph]",
    },
    CommandOption {
        name: "json",
        value: OptionValue::None,
        with: None,
        help: "Print JSON: of each core file and minidump a line, with what ended the process, its threads with their frames, and its modules; of each recording a line with its modules, and then one for each stack with its count or, with --frames, for each sample [default: a block for each thread, and folded stacks]",
    },
];

/// Returns the command line.
pub fn command<'a>(alloc: Global) -> Result<Command<'a>> {
    let mut command = Command::new(alloc, "framehop-stacks")
        .version("0.16.0 (commit ............)")
        .about(ABOUT);
    for option in &OPTIONS {
        command = command.arg(argument(alloc, option)?)?;
    }
    let files = Arg::new(alloc, "file")
        .value_name("FILE")
        .required(true)
        .num_args(1..)
        .help(FILES)
        .action(ArgAction::Append);
    Ok(command.arg(files)?)
}

/// Returns the argument of an option.
fn argument<'a>(alloc: Global, option: &CommandOption) -> Result<Arg<'a>> {
    let argument = Arg::new(alloc, option.name)
        .long(option.name)
        .help(option.help);
    let argument = match option.value {
        OptionValue::None => argument.action(ArgAction::SetTrue),
        OptionValue::One(value) => argument.value_name(value).action(ArgAction::Set),
        OptionValue::Many(value) => argument.value_name(value).action(ArgAction::Append),
    };
    match option.with {
        Some(with) => Ok(argument.requires_arg(with)?),
        None => Ok(argument),
    }
}

//! The run of the program that its arguments ask for.
ghost use Rattle.std.specs.Prelude.{◌≡◌, IfErr, map, option_map, string_bytes};
ghost use Rattle.std.specs.Vec.Iter.{into_iter_items};
ghost use Rattle.framehop_walk.specs.Refusals.{reading_of};
ghost use Rattle.framehop_walk.specs.Runs.{input_path as path_named, IsRunOn, Opens};
ghost use Rattle.framehop_walk.specs.Streams.{outputs};

use crate::input::Input;
use crate::program::{refuse, walk_program};
use crate::refusal::Refusal;
use framehop_output::Output;
use std::alloc::Global;
use std::env::Args;
use std::io;
use std::io::{Read, Write};

/// Runs the program over its arguments, the first of which is its name: opens the file that the next
/// one names, or standard input where there is none, and prints the replies to `out`, or one line
/// that says why the run was refused to `err`. More arguments are refused, and nothing is opened.
///
/// `opener` opens the file at a path, or standard input for `None`. Returns the exit status, and the
/// input where one was opened.
pub fn run<R, O, W, E>(
    alloc: Global,
    arguments: Args,
    opener: O,
    out: &mut Output<W>,
    err: &mut Output<E>,
) -> (u8, Option<Input<R>>)
where
    R: Read + Drop,
    O: FnOnce(Option<&str>) -> io::Result<R>,
    W: Write,
    E: Write,
    requires { O.IsAlwaysCallable opener }
    ensures run { IsRunOn (Opens R.remaining (O.post opener))
        (path_named (map (λ argument. string_bytes argument) (into_iter_items arguments)))
        result.0 result.1 (outputs out.old err.old) (outputs out.new err.new) }
{
    let path = match input_path(arguments) {
        Ok(path) => path,
        Err(refusal) => return (refuse(err, refusal), None),
    };
    match opener(path.as_deref()) {
        Ok(reader) => {
            let mut input = Input::new(reader);
            let status = walk_program(alloc, &mut input, out, err);
            (status, Some(input))
        }
        Err(error) => (refuse(err, Refusal::from(error)), None),
    }
}

/// Returns the path of the file that the arguments name, none for standard input.
fn input_path(mut arguments: Args) -> Result<Option<String>, Refusal>
    ensures path { reading_of (option_map (λ path. string_bytes path)) result
        ≡ path_named (map (λ argument. string_bytes argument) (into_iter_items arguments)) }
    ensures usage { IfErr result (λ refusal. refusal ≡ Refusal.Usage) }
{
    let _program = arguments.next();
    let path = arguments.next();
    if arguments.next().is_some() {
        return Err(Refusal::Usage);
    }
    Ok(path)
}

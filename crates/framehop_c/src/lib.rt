//! framehop as a static library for C.
#![tactic(auto)]

pub mod aarch64;
pub mod cache;
pub mod calls;
pub mod handle;
pub mod lookups;
pub mod next;
pub mod object;
pub mod sections;
pub mod status;
pub mod x86_64;

ghost use Rattle.std.specs.Prelude.{◌≡◌, ◌≢◌, ◌⊎◌, Some};
ghost use Rattle.framehop_c.specs.Status.{ok, out_of_memory};
ghost use Rattle.framehop_c.specs.Objects.{generations_in};
ghost use Rattle.framehop_c.specs.Version.{version_number};

use crate::handle::{Handle, HandlePlace, hand_out};
use crate::object::Object;
use framehop::Generations;
use std::alloc::Global;

/// The version, 0.16.0: 10000 * major + 100 * minor + patch.
const VERSION_NUMBER: u32 = 1600;

/// Returns the version of the archive: 10000 * major + 100 * minor + patch.
#[unsafe(no_mangle)]
pub extern "C" fn framehop_version() -> u32
    ensures { result ≡ version_number }
{
    VERSION_NUMBER
}

/// Makes a counter of generations that starts at 0.
#[unsafe(no_mangle)]
pub extern "C" fn framehop_generations_new(alloc: Global, place: &mut HandlePlace) -> i32
    ensures made { result ≡ ok → generations_in place.new.object ≡ Some 0 }
    ensures kept { result ≢ ok → place.new ≡ place.old }
    ensures statuses { (result ≡ ok) ⊎ (result ≡ out_of_memory) }
{
    hand_out(alloc, Object::Generations(Generations::new()), place)
}

/// Frees what a handle leads to.
#[unsafe(no_mangle)]
pub extern "C" fn framehop_free(handle: Handle) {
    handle.free();
}

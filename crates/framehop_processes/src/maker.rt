//! How modules are made of mappings.
ghost use Rattle.std.specs.Prelude.{◌≡◌, IfOk};
ghost use Rattle.framehop.specs.Modules.{ModuleView};
ghost use Rattle.framehop_processes.specs.declared.mapping.Mapping.{Mapping};

use crate::mapping::Mapping;
use framehop::Unwinder;
use std::alloc::{AllocError, Global};

/// What makes a module of a mapping: it knows the files that processes map by their numbers.
///
/// Its job is whether a file has unwind sections to give: one that is not there, or whose build id is
/// another than that of the file that was mapped, has none. The base of the module is that of the mapping, which a part
/// of a mapping has too.
pub trait ModuleMaker<U: Unwinder> {
    // the module of a mapping
    ghost module_of: { Self → Mapping → ModuleView };

    /// Makes the module of a mapping. It lies at the addresses of the mapping, and has no unwind
    /// data where the mapping is without sections. Fails only where an allocation does.
    fn make_module(&self, alloc: Global, mapping: &Mapping) -> Result<U::Module, AllocError>
        ensures { IfOk result (λ made. U.module_view made ≡ module_of self.now mapping.now) };

    // a module lies at the addresses of its mapping
    ghost start_is: { (maker : Self) (mapping : Mapping) → (module_of maker mapping).start ≡ mapping.start };

    ghost end_is: { (maker : Self) (mapping : Mapping) → (module_of maker mapping).end ≡ mapping.end };
}

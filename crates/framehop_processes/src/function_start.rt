//! Where the functions of a module begin, by its unwind data: what a function without a name is called by.
ghost use Rattle.std.specs.Prelude.{◌≡◌};
ghost use Rattle.framehop_pe.specs.Sections.{Sections};
ghost use Rattle.framehop_processes.specs.FunctionStart.{start_in_table, function_start_in};

use crate::mapped_bytes::MappedBytes;
use framehop::Module;
use framehop::lookup::UnwindDataAt;
use framehop::unwind_data::PeInfo;
use framehop_bytes::section::SectionBytes;
use framehop_pe::unwind_info::function_table::FunctionTableEntries;

/// Returns where the function begins that has an address, by the unwind data of its module: the start of the FDE that
/// covers the address, or of the function of `.pdata`. The address is relative to the module's base; the start is an SVMA,
/// and an RVA in a PE file.
pub(crate) fn function_start(module: &Module<MappedBytes<'_>>, relative_address: u32) -> Option<u64>
    ensures { result ≡ function_start_in «module».now.unwind_data relative_address }
{
    match module.unwind_data_at(relative_address) {
        Ok(UnwindDataAt::Fde(fde)) => Some(fde.covering(relative_address)?.initial_address),
        Ok(UnwindDataAt::Pe(info)) => start_by_table(info, relative_address),
        Ok(UnwindDataAt::Compact(_)) | Err(_) => None,
    }
}

/// Returns where the function of `.pdata` begins that has a relative address.
fn start_by_table(info: &PeInfo<MappedBytes<'_>>, relative_address: u32) -> Option<u64>
    ensures { result ≡ start_in_table info.now.pdata relative_address }
{
    let table = FunctionTableEntries {
        bytes: info.pdata.bytes(),
    };
    let function = table.lookup(relative_address)?;
    Some(u64::from(function.begin_address))
}

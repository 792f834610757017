//! What `dispatch check` prints of an instance.

ghost use Rattle.std.specs.Prelude.{◌≡◌, IfOk, string_bytes};
ghost use Rattle.solomon_reader.specs.Instances.{IsSound, view};
ghost use Rattle.program_parts.specs.Report.{report_text};

use solomon_reader::Instance;
use std::alloc::{AllocError, Global};

/// Five lines: the name, the number of customers, the number of vehicles, the capacity of a vehicle, and the horizon,
/// which is the depot's due date in tenths.
pub(crate) fn report(alloc: Global, instance: &Instance) -> Result<String, AllocError>
    requires { IsSound (view instance.now) }
    ensures { IfOk result (λ text. string_bytes text ≡ report_text (view instance.now)) }
{
    let mut text = String::new(alloc);
    write!(
        text,
        "name {}\ncustomers {}\nvehicles {}\ncapacity {}\nhorizon {}\n",
        instance.name,
        instance.nodes.len() - 1,
        instance.vehicles,
        instance.capacity,
        u64::from(instance.nodes[0].due) * 10
    )?;
    Ok(text)
}

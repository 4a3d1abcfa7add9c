ghost use Rattle.std.specs.Prelude.{◌≡◌, ◌≤◌};
ghost use Rattle.ck_ports.specs.declared.port_end.PortEnd.TheVariants.{Failed};
ghost use Rattle.ck_ports.specs.Saturating.{one_more};

use crate::PortEnd;

/// Counts a fault, and gives the answer that tells of it.
pub fn fault(count: &mut u64) -> PortEnd
    ensures failed { result ≡ Failed }
    ensures risen { count.new ≡ one_more count.old }
    ensures never_falls { count.old ≤ count.new }
{
    *count = count.saturating_add(1);
    PortEnd::Failed
}

ghost use Rattle.std.specs.Prelude.{◌≡◌, ◌<◌, ◌≤◌, ◌↔◌, length, IsErrOf, OnOk, OnErr, None};
ghost use Rattle.std.specs.Arc.{arc_value};
ghost use Rattle.std.specs.FinMap as fin;
ghost use Rattle.registry_core.specs.Entries.{pair_of};

use registry_core::{Entry, Registry, RegistryFault};
use std::sync::Arc;

/// Sets the entry of one pair.
pub fn put<R: Registry>(registry: &mut R, entry: Arc<Entry>) -> Result<(), RegistryFault>
    requires scoped { 0 < length (arc_value entry).scopes }
    requires few_scopes { length (arc_value entry).scopes ≤ 16 }
    ensures ok { OnOk result (R.contents registry.new ≡ fin.insert (R.contents registry.old) (pair_of (arc_value entry)) (arc_value entry)) }
    ensures full { IsErrOf result RegistryFault.Full ↔ ((fin.get (R.contents registry.old) (pair_of (arc_value entry)) ≡ None) × (fin.len (R.contents registry.old) ≡ R.limit registry.old)) }
    ensures only_full { OnErr result (IsErrOf result RegistryFault.Full) }
    ensures err { OnErr result (R.contents registry.new ≡ R.contents registry.old) }
    ensures room { R.limit registry.new ≡ R.limit registry.old }
{
    let told = registry.put(entry);
    told
}

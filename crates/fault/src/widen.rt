// The ways from a layer's fault to the fault of the call that goes through the layer, for `?`.
ghost use Rattle.std.specs.Prelude.{◌≡◌};
ghost use Rattle.fault.specs.declared.kinds.OpenFault.TheVariants.{InTree, InPhrase, InChart};

use crate::kinds::{ChartFault, OpenFault, PhraseFault, TreeFault};

// By hand: a contract has to know which case `?` makes of a fault.
impl From<TreeFault> for OpenFault {
    ghost from_gives = { λ x r. r ≡ InTree x };

    fn from(fault: TreeFault) -> OpenFault {
        OpenFault::InTree(fault)
    }
}

impl From<PhraseFault> for OpenFault {
    ghost from_gives = { λ x r. r ≡ InPhrase x };

    fn from(fault: PhraseFault) -> OpenFault {
        OpenFault::InPhrase(fault)
    }
}

impl From<ChartFault> for OpenFault {
    ghost from_gives = { λ x r. r ≡ InChart x };

    fn from(fault: ChartFault) -> OpenFault {
        OpenFault::InChart(fault)
    }
}

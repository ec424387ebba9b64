ghost use Rattle.posting_sets.specs.Blocks.{AreOfBlocks};

/// The numbers by which `documents_by_rank` and `documents_by_bucket` tell documents apart are those that the costs
/// of a block under the rules on fields and positions are made of. It does nothing.
pub fn numbers_are_those_of_blocks()
    ensures { AreOfBlocks }
{}

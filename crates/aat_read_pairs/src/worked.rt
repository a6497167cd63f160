//! Worked examples of subtables of pairs as theorems. These calls do nothing: what is proved is their contracts.
ghost use Rattle.aat_read_pairs.specs.PairExamples.{ArraysHaveRowsAndColumns, FirstOfATupleCounts, IndexesNameValues, LongArraysHaveRowsAndColumns, OffsetsAreRowsAndColumns, PairsAreListed, RowsAreBisected};

/// The definitions of pairs that are listed compute to the examples.
#[tactic(auto, unfolding(crate::specs::ListedPairs::listed_pairs, crate::specs::ListedPairs::kern_pairs_at, crate::specs::ListedPairs::kerx_pairs_at))]
pub fn lists()
    ensures pairs { PairsAreListed }
    ensures rows { RowsAreBisected }
    ensures tuples { FirstOfATupleCounts }
{}

/// The definitions of pairs by classes compute to the examples.
#[tactic(auto, unfolding(crate::specs::KernClasses::kern_classes_at, crate::specs::KernClasses::grid_at, crate::specs::KernClasses::checked_table_at, crate::specs::ClassTables::class_table_at, crate::specs::KernIndexes::kern_indexes_at, crate::specs::KernIndexes::indexes_at, crate::specs::KerxClasses::array_grid_at, crate::specs::KerxClasses::grid_pairs, aat_read_lookup::specs::Layouts::layout_at, aat_read_lookup::specs::Layouts::trimmed_array_at, aat_read_lookup::specs::Layouts::array_of))]
pub fn classes()
    ensures kern { OffsetsAreRowsAndColumns }
    ensures indexes { IndexesNameValues }
    ensures kerx { ArraysHaveRowsAndColumns }
{}

/// The definitions of pairs by rows and columns with values of 32 bits compute to the examples.
#[tactic(auto, unfolding(crate::specs::LongArrays::long_grid_at, crate::specs::LongArrays::long_grid_pairs, aat_read_lookup::specs::Layouts::layout_at, aat_read_lookup::specs::Layouts::trimmed_array_at, aat_read_lookup::specs::Layouts::array_of))]
pub fn long_arrays()
    ensures { LongArraysHaveRowsAndColumns }
{}

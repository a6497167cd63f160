//! Worked examples of a text that is shaped as theorems. These calls do nothing: what is proved is their contracts.
ghost use Rattle.aat_shaped_text.specs.Examples.{AttachmentsAreDrawn, BreaksAreBetweenClusters, DeletedGlyphsAreAsked, DeletedGlyphsGo, DeletedGlyphsHandOn, FeaturesStayWhole, FontsDecide, IgnorableGlyphsSaySo, KindsSaySo, KeptGlyphsAreCounted, KerningIsRequested, LastKernDecides, LaterClusterIsAsked, LigaturesBeginWithComponents, MarksSaySo, RangesBetweenAreAsked, TrackedLinesAreDrawn};
ghost use Rattle.aat_shaped_text.specs.OpenExamples.{AttachedGlyphsStay, ChainsAreAsked, MixedKerningIsTold, OpenPlacesAreTold, SkippedGlyphsStay, UnkernedGlyphsOpen};

/// The definitions of breaks compute to the examples.
#[tactic(auto, unfolding(aat_buffer::specs::Removal::removal, aat_buffer::specs::Removal::cluster_kept_line, aat_buffer::specs::Removal::lowered_run))]
pub fn breaks()
    ensures clusters { BreaksAreBetweenClusters }
    ensures later { LaterClusterIsAsked }
    ensures deleted { DeletedGlyphsAreAsked }
    ensures ligatures { LigaturesBeginWithComponents }
    ensures handed { DeletedGlyphsHandOn }
    ensures features { FeaturesStayWhole }
{}

/// The definitions of what is drawn compute to the examples.
#[tactic(auto, unfolding(aat_glyph::specs::placement::Attachments::drawn_offset, aat_buffer::specs::Removal::removal, aat_buffer::specs::Removal::cluster_kept_line, aat_buffer::specs::Removal::lowered_run))]
pub fn drawn()
    ensures places { KeptGlyphsAreCounted }
    ensures deleted { DeletedGlyphsGo }
    ensures ignorable { IgnorableGlyphsSaySo }
    ensures marks { MarksSaySo }
    ensures kinds { KindsSaySo }
    ensures classes { FontsDecide }
    ensures attached { AttachmentsAreDrawn }
    ensures tracked { TrackedLinesAreDrawn }
{}

/// The definitions of what features ask for compute to the examples.
pub fn kern()
    ensures last { LastKernDecides }
    ensures requested { KerningIsRequested }
    ensures between { RangesBetweenAreAsked }
{}

/// Where texts may be broken that machines and pairs kern, by what these leave open and attach.
#[tactic(auto, using(crate::proofs::OpenExamples::open_places_are_told, crate::proofs::OpenExamples::mixed_kerning_is_told, crate::proofs::OpenExamples::attached_glyphs_stay, crate::proofs::OpenExamples::skipped_glyphs_stay, crate::proofs::OpenExamples::unkerned_glyphs_open))]
pub fn open_places()
    ensures machines { OpenPlacesAreTold }
    ensures mixed { MixedKerningIsTold }
    ensures attached { AttachedGlyphsStay }
    ensures chains { ChainsAreAsked }
    ensures skipped { SkippedGlyphsStay }
    ensures unkerned { UnkernedGlyphsOpen }
{}

//! Laws of the definitions, each the contract of a function that does nothing.

ghost use Rattle.hill_images.specs.Laws.{LawsOfStorage};

/// What is stored has one meaning: in each layout bytes are one header's at most, the sectors of a slot hold one
/// warrior at most, and an image stands for one hill at most.
pub fn laws_of_storage()
    ensures { LawsOfStorage }
{}

// The theory that comparing rests on: theorems of every machine. The function carries them, so that each check asks for their proofs.
#![tactic(auto)]

ghost use Rattle.theory.specs.Museum.{MuseumTold, MuseumLines};
ghost use Rattle.theory.specs.Parts.{Parts};

// The theorems of `Parts`, and what the list of formulas tells of the museum's machine, in which lines.
pub fn theory_stands()
    ensures theorems { Parts }
    ensures example { MuseumTold }
    ensures lines { MuseumLines }
{}

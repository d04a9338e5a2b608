//! Laws, each as the contract of a function that does nothing. After a call, a caller's proof has the law; a program
//! that runs needs none of these.
ghost use Rattle.std.specs.Prelude.{◌≡◌, ℕ, Bool, List, take};
ghost use Rattle.cidr.specs.model.Bits.{number};
ghost use Rattle.cidr.specs.model.Network.{BeginsWith, HasWidth};
ghost use Rattle.cidr_mmdb.specs.LookUps.{looked_up};
ghost use Rattle.cidr_mmdb.specs.declared.database.Database.{Database};

/// All addresses of the network that a look-up gives have the same answer.
pub fn one_answer()
    ensures { (database : Database) (w : ℕ) (address other : List Bool) → HasWidth w address → HasWidth w other
        → BeginsWith other (take (looked_up database w (number address)).1 address)
        → looked_up database w (number other) ≡ looked_up database w (number address) }
{}

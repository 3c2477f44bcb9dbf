//! A folder of packs, which receives the two files of a pack.

ghost use Rattle.std.specs.Prelude.{◌≡◌, ◌∷◌, [], Option, MatchResult, OnOk};
ghost use Rattle.gitrepository.specs.Installing.{Comes, Folder, IndexComes, MayCome, PackComes, WhereKnown};
ghost use Rattle.gitrepository.specs.declared.folder.PackFileStage.{PackFileStage};
ghost use Rattle.gitrepository.specs.declared.folder.PackFileStage.TheVariants.{Start, PackWritten, PackSynced, IndexWritten, Ready, PackNamed, Done, Failed};

use gitpack::Spool;

/// The progress of writing the files of a pack.
#[derive(Clone, Copy, Debug, PartialEq, Eq)]
pub enum PackFileStage {
    /// No file has been written.
    Start,
    /// The pack is in a temporary file.
    PackWritten,
    /// The temporary file of the pack is synced.
    PackSynced,
    /// The index is also in a temporary file.
    IndexWritten,
    /// Both temporary files are synced.
    Ready,
    /// The pack has its final name.
    PackNamed,
    /// Both files have their final names.
    Done,
    /// A call on the folder failed.
    Failed,
}

/// A folder of packs (gitrepository-layout(5), "objects/pack"). Git finds a pack by its index, so
/// Git does not see a pack whose index is missing.
pub trait PackFolder {
    /// The fault of a failed call.
    type Fault: Drop;

    /// The spool of a received pack.
    type Pack: Spool + Drop;

    // The files that the folder received, or `None` if the contracts do not describe the files.
    ghost known: { Self → Option Folder };

    // The progress of writing the current pack.
    ghost stage: { Self → PackFileStage };

    /// Takes ownership of the pack, which its spool has already stored in a temporary file.
    fn take_pack(&mut self, pack: Self::Pack) -> Result<(), Self::Fault>
        requires { stage self.old ≡ Start }
        ensures stage { MatchResult result (λ _. stage self.new ≡ PackWritten)
            (λ _. stage self.new ≡ Failed) }
        ensures known { WhereKnown (known self.old) (known self.new)
            (λ before after. (after.arrivals ≡ before.arrivals)
            × OnOk result (after.pack ≡ Self.Pack.bytes pack)) };

    /// Syncs the temporary file of the pack.
    fn sync_pack(&mut self) -> Result<(), Self::Fault>
        requires { stage self.old ≡ PackWritten }
        ensures stage { MatchResult result (λ _. stage self.new ≡ PackSynced)
            (λ _. stage self.new ≡ Failed) }
        ensures known { known self.new ≡ known self.old };

    /// Writes the index to a new temporary file.
    fn write_index(&mut self, bytes: &[u8]) -> Result<(), Self::Fault>
        requires { stage self.old ≡ PackSynced }
        ensures stage { MatchResult result (λ _. stage self.new ≡ IndexWritten)
            (λ _. stage self.new ≡ Failed) }
        ensures known { WhereKnown (known self.old) (known self.new)
            (λ before after. (after.arrivals ≡ before.arrivals) × (after.pack ≡ before.pack)
            × OnOk result (after.index ≡ bytes.now)) };

    /// Syncs the temporary file of the index.
    fn sync_index(&mut self) -> Result<(), Self::Fault>
        requires { stage self.old ≡ IndexWritten }
        ensures stage { MatchResult result (λ _. stage self.new ≡ Ready)
            (λ _. stage self.new ≡ Failed) }
        ensures known { known self.new ≡ known self.old };

    /// Renames the temporary pack to its final name, and syncs the folder. After `Err` the pack may
    /// have been renamed.
    fn name_pack(&mut self) -> Result<(), Self::Fault>
        requires { stage self.old ≡ Ready }
        ensures stage { MatchResult result (λ _. stage self.new ≡ PackNamed)
            (λ _. stage self.new ≡ Failed) }
        ensures known { WhereKnown (known self.old) (known self.new)
            (λ before after. (after.index ≡ before.index)
            × MatchResult result (λ _. Comes before after (PackComes before.pack ∷ []))
            (λ _. MayCome before after (PackComes before.pack))) };

    /// Renames the temporary index to its final name, and syncs the folder. After `Err` the index
    /// may have been renamed.
    fn name_index(&mut self) -> Result<(), Self::Fault>
        requires { stage self.old ≡ PackNamed }
        ensures stage { MatchResult result (λ _. stage self.new ≡ Done)
            (λ _. stage self.new ≡ Failed) }
        ensures known { WhereKnown (known self.old) (known self.new)
            (λ before after. MatchResult result (λ _. Comes before after (IndexComes before.index ∷ []))
            (λ _. MayCome before after (IndexComes before.index))) };

    /// Removes the remaining temporary files of the pack. A temporary file that the system cannot
    /// remove remains.
    fn clean(&mut self)
        requires { stage self.old ≡ Failed }
        ensures stage { stage self.new ≡ Start }
        ensures known { WhereKnown (known self.old) (known self.new)
            (λ before after. after.arrivals ≡ before.arrivals) };
}

//! Cases of grants as text.
#![tactic(auto)]

ghost use Rattle.std.specs.Prelude.{◌≡◌, [], ◌∷◌, codes, Some};
ghost use Rattle.capspec.specs.declared.fault.SpecFaultKind.TheVariants.{BadFlags, BadItem, BadNumber, BadPath, Empty, GidsWithoutUid, LeftOut, NotAllow};
ghost use Rattle.capspec.specs.declared.fault.SpecFaultKind.TheVariants.{OpenQuote, TooMany, Twice};
ghost use Rattle.capspec.specs.Faults.{IsFault};
ghost use Rattle.capspec.specs.Grants.{Reads};
ghost use Rattle.capspec.specs.Written.{written};
ghost use Rattle.capspec.specs.declared.flags.Flags4.TheVariants.{R, Rw, Rwps};
ghost use Rattle.tests_core.specs.GrantTexts.{behind_others, fault};
ghost use Rattle.tests_core.specs.Verdicts.{allow};

/// A text for each kind of fault, and the byte at which it stands.
pub fn first_faults()
    ensures empty { IsFault (codes "") (fault Empty 0) }
    ensures blank { IsFault (codes "   ") (fault Empty 3) }
    ensures not_allow { IsFault (codes "allow r,") (fault NotAllow 8) }
    ensures bad_flags { IsFault (codes "allow rwsp") (fault BadFlags 6) }
    ensures left_out_flag { IsFault (codes "allow rwf") (fault LeftOut 6) }
    ensures left_out_item { IsFault (codes "allow rw network 10.0.0.0/8") (fault LeftOut 9) }
    ensures bad_item { IsFault (codes "allow rw quota") (fault BadItem 9) }
    ensures twice { IsFault (codes "allow rw uid=1 uid=2") (fault Twice 15) }
    ensures open_quote { IsFault (codes "allow rw path=\"/a") (fault OpenQuote 9) }
    ensures bad_path { IsFault (codes "allow rw path=/a*") (fault BadPath 9) }
    ensures bad_number { IsFault (codes "allow rw uid=4294967296") (fault BadNumber 9) }
    ensures gids_without_uid { IsFault (codes "allow rw gids=1") (fault GidsWithoutUid 9) }
    ensures too_many { IsFault (behind_others 16) (fault TooMany 128) }
{}

/// A text that reads, and the written form of its grants. `*` is read as all four flags, and written so.
pub fn read_and_written()
    ensures reads { Reads (codes "allow rw uid=1 gids=1,2,allow r") (record (allow Rw) { uid = Some 1; gids = 1 ∷ 2 ∷ [] } ∷ allow R ∷ []) }
    ensures is_written { written (record (allow Rw) { uid = Some 1; gids = 1 ∷ 2 ∷ [] } ∷ allow R ∷ []) ≡ codes "allow rw uid=1 gids=1,2, allow r" }
    ensures all_flags { Reads (codes "allow *") (allow Rwps ∷ []) }
    ensures all_flags_written { written (allow Rwps ∷ []) ≡ codes "allow rwps" }
{}

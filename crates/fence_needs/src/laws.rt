//! What a list of needs says of a program, and what a program without an instruction is. Each function states some by its contract, and does nothing.
ghost use Rattle.std.specs.Prelude.{◌≡◌, ◌≢◌, ◌++◌, ℕ, suc, None, Some, List, [], ◌∷◌, length, slice_get, take, true};
ghost use Rattle.isa.specs.declared.instr.Instr.{Instr};
ghost use Rattle.isa.specs.declared.instr.Instr.TheVariants.{Nop};
ghost use Rattle.isa.specs.Objects.{IsObject, Object};
ghost use Rattle.image_reasons.specs.declared.entries.Site.{Site};
ghost use Rattle.machine.specs.Objects.{IsLoadable};
ghost use Rattle.explore.specs.declared.fault.ExploreFault.{ExploreFault};
ghost use Rattle.explore.specs.declared.question.Question.{Question};
ghost use Rattle.explore.specs.declared.verdict.Failure.{Failure};
ghost use Rattle.verdicts.specs.Verdicts.{IsBrokenBy, IsUntold};
ghost use Rattle.fence_needs.specs.declared.need.Need.TheVariants.{Kept, LeftOut, Needed};
ghost use Rattle.fence_needs.specs.declared.need.SiteNeed.{SiteNeed};
ghost use Rattle.fence_needs.specs.declared.need.Weaker.{Weaker};
ghost use Rattle.fence_needs.specs.declared.need.WeakerSaid.TheVariants.{Does, DoesNot, NotKnown};
ghost use Rattle.fence_needs.specs.Changes.{IsAPlace, LengthsStay, MayStandIn, OthersStay, ProcessorsStay, WordsStay, replaced, without, without_all};
ghost use Rattle.fence_needs.specs.Least.{CannotGo, EachChoiceBreaks, IsMost, LeftOutAreNamed, NoMoreCanGo, is_told, no_more_can_go, spare};
ghost use Rattle.fence_needs.specs.Listed.{ListsEachOnce};
ghost use Rattle.fence_needs.specs.Needs.{AreNeeds, left_out, what_stays};
ghost use Rattle.fence_needs.specs.Sites.{ListsFences, instr_at};
ghost use Rattle.fence_needs.specs.Weakened.{weakened, weaker_of};

/// With another instruction at a site, one instruction is changed and no other: at the site is that one, if there is such a place,
/// and so a nop where the program is without what was there; and at each other site what was there. No program is
/// longer or shorter, there are as many processors, and names and values are the same. What was an object is one, if the
/// instruction may stand in it.
pub fn one_instruction_is_changed()
    ensures there { (object : Object) (site : Site) (instr : Instr) → IsAPlace object site
        → instr_at (replaced object site instr) site ≡ instr }
    ensures nop { (object : Object) (site : Site) → instr_at (without object site) site ≡ Nop }
    ensures others { (object : Object) (site : Site) (instr : Instr) → OthersStay object site instr }
    ensures lengths { (object : Object) (site : Site) (instr : Instr) → LengthsStay object site instr }
    ensures processors { (object : Object) (site : Site) (instr : Instr) → ProcessorsStay object site instr }
    ensures words { (object : Object) (site : Site) (instr : Instr) → WordsStay object site instr }
    ensures object { (object : Object) (site : Site) (instr : Instr) → MayStandIn object instr → IsObject object
        → IsObject (replaced object site instr) }
{}

/// A nop may stand in each program. So may the weaker one of each instruction of an object.
pub fn weaker_ones_may_stand_there()
    ensures nop { (object : Object) → MayStandIn object Nop }
    ensures weaker { (object : Object) (site : Site) (weaker : Instr) → IsObject object
        → weaker_of (instr_at object site) ≡ Some weaker → MayStandIn object weaker }
{}

/// A site is listed exactly when a flush or a fence is there.
pub fn all_fences_are_listed()
    ensures { (object : Object) → ListsFences object }
{}

/// The needs of a program are those of its flushes and fences: each is in the list once, with its instruction, and nothing else is.
pub fn needs_are_of_all_fences()
    ensures { (question : Question) (limit : ℕ) (object : Object) (needs : List SiteNeed)
        → AreNeeds question limit object needs → ListsEachOnce object needs }
{}

/// What is said of an instruction is so. Needed: some run of the program without it alone breaks what is asked. Left out: none does. Kept: none
/// does, and some run breaks it of the program without it and those before it that are left out. Without all that are left out none does.
pub fn needs_are_so()
    ensures needed { (question : Question) (limit : ℕ) (object : Object) (needs : List SiteNeed) (i : ℕ) (one : SiteNeed) (failure : Failure)
        → AreNeeds question limit object needs → slice_get needs i ≡ Some one → one.need ≡ Needed failure
        → IsBrokenBy question (without object one.site) }
    ensures left_out { (question : Question) (limit : ℕ) (object : Object) (needs : List SiteNeed) (i : ℕ) (one : SiteNeed)
        → AreNeeds question limit object needs → slice_get needs i ≡ Some one → one.need ≡ LeftOut
        → IsBrokenBy question (without object one.site) → ⊥ }
    ensures kept { (question : Question) (limit : ℕ) (object : Object) (needs : List SiteNeed) (i : ℕ) (one : SiteNeed) (failure : Failure)
        → AreNeeds question limit object needs → slice_get needs i ≡ Some one → one.need ≡ Kept failure
        → (IsBrokenBy question (without object one.site) → ⊥)
        × IsBrokenBy question (without_all object (left_out (take i needs) ++ one.site ∷ [])) }
    ensures together { (question : Question) (limit : ℕ) (object : Object) (needs : List SiteNeed)
        → AreNeeds question limit object needs → IsBrokenBy question (what_stays object needs) → ⊥ }
{}

/// What stays and is told cannot go too, whatever else goes. It is so of each instruction that stays, if each that is left out is a fence or a
/// flush of a word that it names by its address: of the program that is left without that one, and of each with still fewer such fences and
/// flushes, some run breaks what is asked.
pub fn what_stays_cannot_go()
    ensures { (question : Question) (limit : ℕ) (object : Object) (needs : List SiteNeed) (i : ℕ) (one : SiteNeed)
        → IsLoadable object → AreNeeds question limit object needs → LeftOutAreNamed needs → slice_get needs i ≡ Some one
        → one.need ≢ LeftOut → is_told one.need ≡ true → CannotGo question (what_stays object needs) one.site }
{}

/// So no more can go than those that are left out, if all are told, and each flush names its word by its address: without all these and any more
/// flushes and fences some run breaks what is asked. (Others that are fewer may do.)
pub fn no_more_can_go_than_is_left_out()
    ensures { (question : Question) (limit : ℕ) (object : Object) (needs : List SiteNeed)
        → IsLoadable object → AreNeeds question limit object needs → no_more_can_go needs ≡ true
        → NoMoreCanGo question object (left_out needs) }
{}

/// Nor can a larger number go, whichever they are, if so it is of each choice of one more of those without which alone what is asked holds: without
/// these some run breaks it. There is no such choice where all of those are left out, and none is kept.
pub fn no_larger_number_can_go()
    ensures choices { (question : Question) (limit : ℕ) (object : Object) (needs : List SiteNeed)
        → IsLoadable object → AreNeeds question limit object needs → no_more_can_go needs ≡ true
        → EachChoiceBreaks question object (suc (length (left_out needs))) (spare needs)
        → IsMost question object (length (left_out needs)) }
    ensures none_kept { (question : Question) (limit : ℕ) (object : Object) (needs : List SiteNeed)
        → IsLoadable object → AreNeeds question limit object needs → no_more_can_go needs ≡ true
        → spare needs ≡ left_out needs → IsMost question object (length (left_out needs)) }
{}

/// What is said of a weaker one is so, in the program without all that are left out, and with those before it that do. It is the weaker one of
/// the instruction. If it does, no run with it breaks what is asked; if it does not, some run does; or it is not told. Something is said
/// of each that stays and has a weaker one, and nothing in place of what is left out. With all that do together no run breaks it.
pub fn weaker_is_so()
    ensures is_weaker { (question : Question) (limit : ℕ) (object : Object) (needs : List SiteNeed) (i : ℕ) (one : SiteNeed) (weaker : Weaker)
        → AreNeeds question limit object needs → slice_get needs i ≡ Some one → one.weaker ≡ Some weaker
        → weaker_of one.instr ≡ Some weaker.instr }
    ensures does { (question : Question) (limit : ℕ) (object : Object) (needs : List SiteNeed) (i : ℕ) (one : SiteNeed) (weaker : Weaker)
        → AreNeeds question limit object needs → slice_get needs i ≡ Some one → one.weaker ≡ Some weaker → weaker.said ≡ Does
        → IsBrokenBy question (replaced (weakened (what_stays object needs) (take i needs)) one.site weaker.instr) → ⊥ }
    ensures does_not { (question : Question) (limit : ℕ) (object : Object) (needs : List SiteNeed) (i : ℕ) (one : SiteNeed) (weaker : Weaker)
        (failure : Failure)
        → AreNeeds question limit object needs → slice_get needs i ≡ Some one → one.weaker ≡ Some weaker → weaker.said ≡ DoesNot failure
        → IsBrokenBy question (replaced (weakened (what_stays object needs) (take i needs)) one.site weaker.instr) }
    ensures not_known { (question : Question) (limit : ℕ) (object : Object) (needs : List SiteNeed) (i : ℕ) (one : SiteNeed) (weaker : Weaker)
        (fault : ExploreFault)
        → AreNeeds question limit object needs → slice_get needs i ≡ Some one → one.weaker ≡ Some weaker → weaker.said ≡ NotKnown fault
        → IsUntold question limit (replaced (weakened (what_stays object needs) (take i needs)) one.site weaker.instr) fault }
    ensures tried { (question : Question) (limit : ℕ) (object : Object) (needs : List SiteNeed) (i : ℕ) (one : SiteNeed) (instr : Instr)
        → AreNeeds question limit object needs → slice_get needs i ≡ Some one → one.need ≢ LeftOut
        → weaker_of one.instr ≡ Some instr → one.weaker ≢ None }
    ensures left_out { (question : Question) (limit : ℕ) (object : Object) (needs : List SiteNeed) (i : ℕ) (one : SiteNeed)
        → AreNeeds question limit object needs → slice_get needs i ≡ Some one → one.need ≡ LeftOut
        → one.weaker ≡ None }
    ensures together { (question : Question) (limit : ℕ) (object : Object) (needs : List SiteNeed)
        → AreNeeds question limit object needs → IsBrokenBy question (weakened (what_stays object needs) needs) → ⊥ }
{}

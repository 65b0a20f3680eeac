// The coefficients of polynomials, i64 and f64: what factorising, folding and listing do with either.
ghost use Rattle.std.specs.Prelude.{◌≡◌, true, List, ℕ, ◌+◌, ◌≤◌, length, take, drop};
ghost use Rattle.std.proofs.lemmas.List.Edits.{sets};
ghost use Rattle.algebra.specs.Operations.{double};
ghost use Rattle.algebra.specs.Each.{Each};
ghost use Rattle.algebra.specs.Cut.{cut_at};
ghost use Rattle.algebra.specs.Fold.{fold};
ghost use Rattle.algebra.specs.declared.Basis.{Basis};
ghost use Rattle.algebra.specs.declared.Basis.TheVariants.{Chebyshev};
ghost use Rattle.algebra.specs.declared.Parity.TheVariants.{Odd};
ghost use Rattle.number.specs.Limits.{plan_limit};
ghost use Rattle.number.specs.Numbers.{Numbers};
ghost use Rattle.number.specs.Tests.{degree_of};
ghost use Rattle.number.specs.inside.Folding.{Foldable};

// A type of coefficients.
pub trait Coefficient: Copy {
    // The operations, which coefficients count as zero, and which lists are small enough.
    ghost numbers: { Numbers Self };

    // What a cut asks of each coefficient.
    ghost CanCut: { Self → Type 0 };

    // What listing asks of the coefficients.
    ghost CanList: { List Self → Type 0 };

    // Returns whether the coefficient counts as zero.
    fn is_zero(self) -> bool
        ensures { result ≡ numbers.is_zero self };

    // Returns the coefficient less another.
    fn minus(self, other: Self) -> Self
        requires { CanCut self × CanCut other }
        ensures { result ≡ numbers.ops.sub self other };

    // Returns twice the coefficient.
    fn twice(self) -> Self
        requires { CanCut self }
        ensures { result ≡ double numbers.ops self };

    // Returns whether the coefficients are small enough to fold and to list.
    fn sum_fits(c: &[Self]) -> bool
        ensures { result ≡ numbers.small c.now };

    // Writes the fold of an odd Chebyshev polynomial. The order of operations on f64 is the source's.
    fn fold_odd(c: &[Self], out: &mut [Self])
        requires { Foldable Odd c.now out.old × (numbers.small c.now ≡ true) }
        ensures { out.new ≡ sets out.old 0 (fold numbers.ops Odd Chebyshev c.now) };

    // Small coefficients can be listed, within the limit of the degree.
    ghost small_lists: { (c : List Self) → numbers.small c ≡ true → degree_of c ≤ plan_limit → CanList c };

    // A cut of coefficients that can be listed is allowed, and both of its parts can be listed again.
    ghost lists_cut: { (c : List Self) → 2 ≤ length c → CanList c → Each CanCut c };

    ghost lists_low: { (basis : Basis) (p : ℕ) (c : List Self) → p ≤ length c → CanList c → CanList (take p (cut_at numbers.ops basis p c)) };

    ghost lists_high: { (basis : Basis) (p : ℕ) (c : List Self) → p ≤ length c → length c ≤ p + p → CanList c
        → CanList (drop p (cut_at numbers.ops basis p c)) };
}

// Queries read from texts.

ghost use Rattle.std.specs.Prelude.{map, codes, [], ◌∷◌};
ghost use Rattle.std.specs.List.{AllZip};
ghost use Rattle.kinds.specs.Kind.{kind_name};
ghost use Rattle.parsing.specs.Reads.{Reads, ReadsUnlessMemory, SpellsSeen};
ghost use Rattle.query.specs.Term.{term_of};
ghost use Rattle.query.specs.declared.term.Term.TheVariants.{Or};
ghost use Rattle.query.specs.Grammar.{AreAlternative, AreTerm, IsTerm, AreTerms, IsQuery};

use crate::alternative::{Alternative, Alternatives};
use crate::check::has_many_ors;
use crate::query::Query;
use crate::term::Term;
use kinds::Kind;
use kinds::kind::prove_kinds_apart;
use parsing::ReadError;
use parsing::parts::parts_of;
use parsing::words::{is_blank, words_of};
use std::alloc::Global;

impl Term {
    /// Reads a term. It is `entity`, or one of `read`, `mut`, `opt`, `with`, `without`, `added` and `changed` and the
    /// name of a kind. Or it is `or` and two to four alternatives, each `with` or `without` and the name of a kind.
    /// One or more spaces come between the words and any number at either end.
    pub fn read(alloc: Global, text: &str) -> Result<Term, ReadError>
        ensures { ReadsUnlessMemory IsTerm text.now result }
    {
        let words = words_of(alloc, text)?;
        match Term::of_words(words.as_slice()) {
            Some(term) => Ok(term),
            None => Err(ReadError::Outside),
        }
    }

    // The term that the words are.
    fn of_words(words: &[&str]) -> Option<Term>
        ensures { Reads AreTerm (map (λ word. word.now) words.now) result }
    {
        match words {
            [word] => Term::of_word(word),
            [word, name] => Term::of_kind(word, Kind::named(name)?),
            [word, a, b, more @ ..] => Term::of_or(word, a, b, more),
            _ => None,
        }
    }

    // The term that a word is by itself.
    fn of_word(word: &str) -> Option<Term>
        ensures { Reads AreTerm (word.now ∷ []) result }
    {
        match word {
            "entity" => Some(Term::Entity),
            _ => None,
        }
    }

    // The term that a word makes of alternatives, of which the first is these two words.
    fn of_or(word: &str, first: &str, name: &str, more: &[&str]) -> Option<Term>
        ensures { Reads AreTerm (word.now ∷ first.now ∷ name.now ∷ map (λ word. word.now) more.now)
            result }
    {
        match word {
            "or" => Some(Term::Or(Alternatives::of_words(first, name, more)?)),
            _ => None,
        }
    }

    // The term that a word makes of a kind.
    fn of_kind(word: &str, kind: Kind) -> Option<Term>
        ensures { Reads AreTerm (word.now ∷ kind_name kind ∷ []) result }
    {
        prove_kinds_apart();
        match word {
            "read" => Some(Term::Read(kind)),
            "mut" => Some(Term::Mut(kind)),
            "opt" => Some(Term::Opt(kind)),
            "with" => Some(Term::With(kind)),
            "without" => Some(Term::Without(kind)),
            "added" => Some(Term::Added(kind)),
            "changed" => Some(Term::Changed(kind)),
            _ => None,
        }
    }
}

impl Alternatives {
    // The alternatives that the words are, of which the first two are these.
    fn of_words(u: &str, k: &str, more: &[&str]) -> Option<Alternatives>
        ensures { Reads (λ alternatives. AreTerm (Or alternatives))
            (codes "or" ∷ u.now ∷ k.now ∷ map (λ word. word.now) more.now) result }
    {
        match more {
            [v, l] => Alternatives::of_two(u, k, v, l),
            [v, l, w, m, more @ ..] => Alternatives::of_more(u, k, v, l, w, m, more),
            _ => None,
        }
    }

    // The three or four alternatives that the words are.
    fn of_more(
        u: &str,
        k: &str,
        v: &str,
        l: &str,
        w: &str,
        m: &str,
        more: &[&str],
    ) -> Option<Alternatives>
        ensures { Reads (λ alternatives. AreTerm (Or alternatives))
            (codes "or" ∷ u.now ∷ k.now ∷ v.now ∷ l.now ∷ w.now ∷ m.now
            ∷ map (λ word. word.now) more.now)
            result }
    {
        match more {
            [] => Alternatives::of_three(u, k, v, l, w, m),
            [x, n] => Alternatives::of_four(u, k, v, l, w, m, x, n),
            _ => None,
        }
    }

    // The two alternatives that the words are.
    fn of_two(u: &str, k: &str, v: &str, l: &str) -> Option<Alternatives>
        ensures { Reads (λ alternatives. AreTerm (Or alternatives))
            (codes "or" ∷ u.now ∷ k.now ∷ v.now ∷ l.now ∷ []) result }
    {
        Some(Alternatives::Two([Alternative::of_words(u, k)?, Alternative::of_words(v, l)?]))
    }

    // The three alternatives that the words are.
    fn of_three(u: &str, k: &str, v: &str, l: &str, w: &str, m: &str) -> Option<Alternatives>
        ensures { Reads (λ alternatives. AreTerm (Or alternatives))
            (codes "or" ∷ u.now ∷ k.now ∷ v.now ∷ l.now ∷ w.now ∷ m.now ∷ []) result }
    {
        Some(Alternatives::Three([
            Alternative::of_words(u, k)?,
            Alternative::of_words(v, l)?,
            Alternative::of_words(w, m)?,
        ]))
    }

    // The four alternatives that the words are.
    fn of_four(
        u: &str,
        k: &str,
        v: &str,
        l: &str,
        w: &str,
        m: &str,
        x: &str,
        n: &str,
    ) -> Option<Alternatives>
        ensures { Reads (λ alternatives. AreTerm (Or alternatives))
            (codes "or" ∷ u.now ∷ k.now ∷ v.now ∷ l.now ∷ w.now ∷ m.now ∷ x.now ∷ n.now ∷ [])
            result }
    {
        Some(Alternatives::Four([
            Alternative::of_words(u, k)?,
            Alternative::of_words(v, l)?,
            Alternative::of_words(w, m)?,
            Alternative::of_words(x, n)?,
        ]))
    }
}

impl Alternative {
    // The alternative that two words are.
    fn of_words(word: &str, name: &str) -> Option<Alternative>
        ensures { Reads AreAlternative (word.now ∷ name.now ∷ []) result }
    {
        match word {
            "with" => Some(Alternative::With(Kind::named(name)?)),
            "without" => Some(Alternative::Without(Kind::named(name)?)),
            _ => None,
        }
    }
}

impl Query {
    /// Reads a query: terms with commas between, with no more than two `or` terms among them. The empty text, or one of spaces alone, is
    /// the query without terms. Elsewhere each part needs a term: a last comma is refused.
    pub fn read(alloc: Global, text: &str) -> Result<Query, ReadError>
        ensures { ReadsUnlessMemory IsQuery text.now result }
    {
        let query = Query::read_terms(alloc, text)?;
        if has_many_ors(query.terms()) {
            return Err(ReadError::Outside);
        }
        Ok(query)
    }

    // The terms, however many of them are `or` terms.
    #[tactic(auto, using(crate::proofs::QueryTexts::read_parts))]
    fn read_terms(alloc: Global, text: &str) -> Result<Query, ReadError>
        ensures { ReadsUnlessMemory AreTerms text.now result }
    {
        if is_blank(text) {
            return Ok(Query::new(alloc));
        }
        let parts = parts_of(alloc, text)?;
        Query::of_parts(alloc, parts.as_slice())
    }

    // The query of which each part is a term.
    fn of_parts(alloc: Global, parts: &[&str]) -> Result<Query, ReadError>
        ensures { ReadsUnlessMemory (AllZip (SpellsSeen term_of IsTerm))
            (map (λ part. part.now) parts.now) result }
    {
        let mut query = Query::new(alloc);
        for part in parts {
            query.push(Term::read(alloc, part)?)?;
        }
        Ok(query)
    }
}

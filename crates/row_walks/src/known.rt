// What a walk knows of the letters, by number.
ghost use Rattle.std.specs.Prelude.{◌≡◌};
ghost use Rattle.std.specs.Option.{option_map};
ghost use Rattle.dom_terms.specs.Sorts.{data_sort_of};
ghost use Rattle.formula_table.specs.declared.tables.Table as tables;
ghost use Rattle.formula_table.specs.Forms.{form_at, term_at};
ghost use Rattle.letter_bindings.specs.Known as known;
ghost use Rattle.row_patterns.specs.Views.{letter_in, term_letter_in, data_letter_in};
ghost use Rattle.row_walks.specs.Views.{places_at, terms_at, datas_of, known_at};

use dom_terms::{DataSort, Sort};
use numbered_formulas::Variable;
use row_patterns::{DataLetter, FormulaLetter, TermLetter};

/// A formula for each letter for formulas, where one is known.
#[derive(Clone, Copy)]
pub struct Places {
    /// That of P.
    pub p: Option<u32>,
    /// That of Q.
    pub q: Option<u32>,
    /// That of R.
    pub r: Option<u32>,
    /// That of A.
    pub a: Option<u32>,
    /// That of B.
    pub b: Option<u32>,
    /// That of K.
    pub k: Option<u32>,
    /// That of H.
    pub h: Option<u32>,
}

impl Places {
    /// None is known.
    pub fn nothing() -> Places
        ensures { (table : tables.Table) → places_at table result ≡ known.no_formulas }
    {
        Places {
            p: None,
            q: None,
            r: None,
            a: None,
            b: None,
            k: None,
            h: None,
        }
    }

    /// That of the letter.
    pub fn get(&self, letter: FormulaLetter) -> Option<u32>
        ensures { (table : tables.Table) → option_map (form_at table) result
            ≡ known.place_in (places_at table self.now) (letter_in letter) }
    {
        match letter {
            FormulaLetter::P => self.p,
            FormulaLetter::Q => self.q,
            FormulaLetter::R => self.r,
            FormulaLetter::A => self.a,
            FormulaLetter::B => self.b,
            FormulaLetter::K => self.k,
            FormulaLetter::H => self.h,
        }
    }

    /// Learns that of the letter.
    pub fn set(&mut self, letter: FormulaLetter, number: u32)
        ensures { (table : tables.Table) → places_at table self.new
            ≡ known.put_place (letter_in letter) (form_at table number)
            (places_at table self.old) }
    {
        match letter {
            FormulaLetter::P => self.p = Some(number),
            FormulaLetter::Q => self.q = Some(number),
            FormulaLetter::R => self.r = Some(number),
            FormulaLetter::A => self.a = Some(number),
            FormulaLetter::B => self.b = Some(number),
            FormulaLetter::K => self.k = Some(number),
            FormulaLetter::H => self.h = Some(number),
        }
    }
}

/// A term for each letter for terms, where one is known.
#[derive(Clone, Copy)]
pub struct Terms {
    /// That of E.
    pub e: Option<u32>,
    /// That of F.
    pub f: Option<u32>,
    /// That of S.
    pub s: Option<u32>,
    /// That of I.
    pub i: Option<u32>,
    /// That of L.
    pub l: Option<u32>,
    /// That of T.
    pub t: Option<u32>,
    /// That of J.
    pub j: Option<u32>,
    /// That of M.
    pub m: Option<u32>,
    /// That of G.
    pub g: Option<u32>,
    /// That of V.
    pub v: Option<u32>,
    /// That of Y.
    pub y: Option<u32>,
    /// That of N.
    pub n: Option<u32>,
}

impl Terms {
    /// None is known.
    pub fn nothing() -> Terms
        ensures { (table : tables.Table) → terms_at table result ≡ known.no_terms }
    {
        Terms {
            e: None,
            f: None,
            s: None,
            i: None,
            l: None,
            t: None,
            j: None,
            m: None,
            g: None,
            v: None,
            y: None,
            n: None,
        }
    }

    /// That of the letter.
    pub fn get(&self, letter: TermLetter) -> Option<u32>
        ensures { (table : tables.Table) → option_map (term_at table) result
            ≡ known.term_in (terms_at table self.now) (term_letter_in letter) }
    {
        match letter {
            TermLetter::E => self.e,
            TermLetter::F => self.f,
            TermLetter::S => self.s,
            TermLetter::I => self.i,
            TermLetter::L => self.l,
            TermLetter::T => self.t,
            TermLetter::J => self.j,
            TermLetter::M => self.m,
            TermLetter::G => self.g,
            TermLetter::V => self.v,
            TermLetter::Y => self.y,
            TermLetter::N => self.n,
        }
    }

    /// Learns that of the letter.
    pub fn set(&mut self, letter: TermLetter, number: u32)
        ensures { (table : tables.Table) → terms_at table self.new
            ≡ known.put_term (term_letter_in letter) (term_at table number)
            (terms_at table self.old) }
    {
        match letter {
            TermLetter::E => self.e = Some(number),
            TermLetter::F => self.f = Some(number),
            TermLetter::S => self.s = Some(number),
            TermLetter::I => self.i = Some(number),
            TermLetter::L => self.l = Some(number),
            TermLetter::T => self.t = Some(number),
            TermLetter::J => self.j = Some(number),
            TermLetter::M => self.m = Some(number),
            TermLetter::G => self.g = Some(number),
            TermLetter::V => self.v = Some(number),
            TermLetter::Y => self.y = Some(number),
            TermLetter::N => self.n = Some(number),
        }
    }
}

/// A data sort for each letter for data sorts, where one is known.
#[derive(Clone, Copy)]
pub struct Datas {
    /// That of h.
    pub h: Option<DataSort>,
    /// That of k.
    pub k: Option<DataSort>,
    /// That of j.
    pub j: Option<DataSort>,
}

impl Datas {
    /// That of the letter.
    pub fn get(&self, letter: DataLetter) -> Option<DataSort>
        ensures { option_map data_sort_of result
            ≡ known.data_in (datas_of self.now) (data_letter_in letter) }
    {
        match letter {
            DataLetter::H => self.h,
            DataLetter::K => self.k,
            DataLetter::J => self.j,
        }
    }

    /// Learns that of the letter.
    pub fn set(&mut self, letter: DataLetter, sort: DataSort)
        ensures { datas_of self.new
            ≡ known.put_data (data_letter_in letter) (data_sort_of sort) (datas_of self.old) }
    {
        match letter {
            DataLetter::H => self.h = Some(sort),
            DataLetter::K => self.k = Some(sort),
            DataLetter::J => self.j = Some(sort),
        }
    }
}

/// What a walk knows: what each letter is, and what stands for it below a binder of `$x`; `$x` and
/// its sort; and the formula that `P with E for $x` is to be.
#[derive(Clone, Copy)]
pub struct Known {
    /// The formulas.
    pub formulas: Places,
    /// What stands for the letters below a binder: their formulas closed over `$x`.
    pub belows: Places,
    /// The terms.
    pub terms: Terms,
    /// The data sorts.
    pub datas: Datas,
    /// Any sort: the letter s.
    pub sort: Option<Sort>,
    /// The hole, or that there is none: the letter o.
    pub hole: Option<Option<DataSort>>,
    /// `$x`
    pub x: Option<Variable>,
    /// The sort of `$x`.
    pub x_sort: Option<Sort>,
    /// The formula that `P with E for $x` is to be.
    pub put: Option<u32>,
}

impl Known {
    /// Nothing is known.
    pub fn nothing() -> Known
        ensures { (table : tables.Table) → known_at table result ≡ known.nothing }
    {
        Known {
            formulas: Places::nothing(),
            belows: Places::nothing(),
            terms: Terms::nothing(),
            datas: Datas {
                h: None,
                k: None,
                j: None,
            },
            sort: None,
            hole: None,
            x: None,
            x_sort: None,
            put: None,
        }
    }
}

//! The least function fields of a definition.
ghost use Rattle.std.specs.Prelude.{◌≡◌, [], cond, Option, IfOk};
ghost use Rattle.std.specs.List.{list_any};
ghost use Rattle.kl_meaning.specs.Match.{same_name};
ghost use Rattle.kl_syntax.specs.View.{pattern_view, view, decls_of};
ghost use Rattle.kl_functions.specs.Known.{AreFieldsOf, IsKnown, AreKnown, AreDistinct, fields_in, settled_labels, functions_of, fields_of};
ghost use Rattle.kl_functions.specs.Occurrences.{names_of, pairs_of};
ghost use Rattle.kl_functions.specs.Rounds as spec;
ghost use Rattle.kl_functions.specs.Rounds.{facts_of, facts_in, ref_view, literal_refs, if_bare, at_place, AreSettled};
ghost use Rattle.kl_ho.specs.Functions.{AreFunctionFields};

use crate::candidates::{candidates, parameter};
use crate::first::{is_first_function, is_label};
use crate::occurrences::{Literal, Occurrence, Referent};
use crate::variables::{copied, is_among};
use kl_base::{Label, NoMemory, Seq};
use kl_syntax::{Decl, Expr, Pattern, Program};
use std::alloc::Global;

/// What is known of a definition: whether it is a function, and the labels of its function fields.
#[derive(Drop)]
pub struct Known {
    pub name: Label,
    pub is_function: bool,
    pub fields: Seq<Label>,
}

/// What stands before a definition.
#[derive(Clone, Copy)]
pub struct Before<'p> {
    pub sources: &'p [Label],
    pub known: &'p [Known],
}

impl<'p> Before<'p> {
    /// Whether a name that is no variable is a function of one argument.
    pub fn is_function(&self, name: &Label) -> bool
        ensures { result ≡ functions_of self.now.known.now self.now.sources.now name.now }
    {
        let all = self.known;
        let mut found = is_first_function(self.sources, name);
        'known: for known in all {
            found = known.is_function(name, found);
        }
        found
    }

    /// The labels of the function fields of a definition.
    pub fn fields(&self, name: &Label) -> &'p [Label]
        ensures { result.now ≡ fields_of self.now.known.now name.now }
    {
        let all = self.known;
        let mut found: &'p [Label] = &[];
        'known: for known in all {
            found = known.fields(name, found);
        }
        found
    }
}

impl Known {
    fn is_function(&self, name: &Label, outside: bool) -> bool
        ensures { result ≡ cond (same_name name.now self.now.name) self.now.is_function outside }
    {
        if *name == self.name {
            self.is_function
        } else {
            outside
        }
    }

    fn fields<'p>(&'p self, name: &Label, outside: &'p [Label]) -> &'p [Label]
        ensures { result.now ≡ cond (same_name name.now self.now.name) self.now.fields outside.now }
    {
        if *name == self.name {
            self.fields.slice()
        } else {
            outside
        }
    }
}

/// A round of the search: the places in the body of a definition, and the fields of its parameter that are not known to
/// be functions.
#[derive(Clone, Copy)]
pub struct Round<'r, 'a> {
    pub before: Before<'r>,
    pub found: &'r [Occurrence],
    pub unmade: &'r [&'a Label],
}

impl Round<'_, '_> {
    // Whether a name that stands in a field is a function, as far as is known.
    fn stands_for(&self, standing: &Referent) -> bool
        ensures { result ≡ spec.stands_for (facts_of self.now) (ref_view standing.now) }
    {
        match standing {
            Referent::Field(x) => !is_among(x, self.unmade),
            Referent::Global(d) => self.before.is_function(d),
            Referent::Local => false,
        }
    }

    fn gives_at(&self, label: &Label, field: &(Label, Option<Referent>)) -> bool
        ensures { result ≡ if_bare (λ f. spec.gives_at (facts_of self.now) label.now f) field.now }
    {
        match &field.1 {
            Some(standing) => *label == field.0 && self.stands_for(standing),
            None => false,
        }
    }

    fn gives_in(&self, label: &Label, literal: &Option<Literal>) -> bool
        ensures { result ≡ list_any (λ f. spec.gives_at (facts_of self.now) label.now f) (literal_refs literal.now) }
    {
        match literal {
            Some(fields) => self.gives_among(label, fields.slice()),
            None => false,
        }
    }

    fn gives_among(&self, label: &Label, fields: &[(Label, Option<Referent>)]) -> bool
        ensures { result ≡ list_any (λ f. if_bare (λ g. spec.gives_at (facts_of self.now) label.now g) f) fields.now }
    {
        fields.iter().any(|field| self.gives_at(label, field))
    }

    // Whether a function stands at the label in this place, a call of the parameter.
    fn gives(&self, head: &Label, label: &Label, place: &Occurrence) -> bool
        ensures { result ≡ at_place (λ s. spec.gives (facts_of self.now) head.now label.now s) place.now }
    {
        match place {
            Occurrence::Head(called, literal) => {
                is_parameter(head, called) && self.gives_in(label, literal)
            }
            Occurrence::Alone(_) => false,
        }
    }

    // Whether a function is known to stand at the label of this head.
    fn is_field(&self, head: &Referent, label: &Label) -> bool
        ensures { result ≡ spec.is_field (facts_of self.now) (ref_view head.now) label.now }
    {
        match head {
            Referent::Field(h) => self.is_given(h, label),
            Referent::Global(d) => is_label(label, self.before.fields(d)),
            Referent::Local => false,
        }
    }

    fn is_given(&self, head: &Label, label: &Label) -> bool
        ensures { result ≡ list_any (λ o. at_place (λ s. spec.gives (facts_of self.now) head.now label.now s) o) self.now.found.now }
    {
        self.found
            .iter()
            .any(|place| self.gives(head, label, place))
    }

    fn is_handed_at(&self, x: &Label, head: &Referent, field: &(Label, Option<Referent>)) -> bool
        ensures { result ≡ if_bare (λ f. spec.is_handed_at (facts_of self.now) x.now (ref_view head.now) f) field.now }
    {
        match &field.1 {
            Some(standing) => is_parameter(x, standing) && self.is_field(head, &field.0),
            None => false,
        }
    }

    fn is_handed(&self, x: &Label, head: &Referent, literal: &Option<Literal>) -> bool
        ensures { result ≡ list_any (λ f. spec.is_handed_at (facts_of self.now) x.now (ref_view head.now) f) (literal_refs literal.now) }
    {
        match literal {
            Some(fields) => self.is_handed_among(x, head, fields.slice()),
            None => false,
        }
    }

    fn is_handed_among(
        &self,
        x: &Label,
        head: &Referent,
        fields: &[(Label, Option<Referent>)],
    ) -> bool
        ensures { result ≡ list_any (λ f. if_bare (λ g. spec.is_handed_at (facts_of self.now) x.now (ref_view head.now) g) f) fields.now }
    {
        fields.iter().any(|field| self.is_handed_at(x, head, field))
    }

    // Whether the variable is the head of this call, or is handed to a function field of its head.
    fn makes(&self, x: &Label, place: &Occurrence) -> bool
        ensures { result ≡ at_place (λ s. spec.makes (facts_of self.now) x.now s) place.now }
    {
        match place {
            Occurrence::Head(head, literal) => {
                is_parameter(x, head) || self.is_handed(x, head, literal)
            }
            Occurrence::Alone(_) => false,
        }
    }

    fn is_made(&self, x: &Label) -> bool
        ensures { result ≡ spec.is_made (facts_of self.now) x.now }
    {
        self.is_made_among(x, self.found)
    }

    fn is_made_among(&self, x: &Label, found: &[Occurrence]) -> bool
        ensures { result ≡ list_any (λ o. at_place (λ s. spec.makes (facts_of self.now) x.now s) o) found.now }
    {
        found.iter().any(|place| self.makes(x, place))
    }
}

// Whether the name refers to this field of the parameter.
fn is_parameter(x: &Label, referent: &Referent) -> bool
    ensures { result ≡ spec.is_parameter x.now (ref_view referent.now) }
{
    match referent {
        Referent::Field(y) => *x == *y,
        Referent::Global(_) | Referent::Local => false,
    }
}

// The fields that a round leaves unmade.
fn still_unmade<'r, 'a>(
    alloc: Global,
    before: Before<'r>,
    found: &'r [Occurrence],
    unmade: &'r [&'a Label],
) -> Result<Vec<&'a Label>, NoMemory>
    ensures { IfOk result (λ next. names_of next.items
        ≡ spec.still_unmade (facts_in before.entry found.now unmade.now) (names_of unmade.now)) }
{
    let round = Round {
        before,
        found,
        unmade,
    };
    let mut next = Vec::new(alloc);
    'unmade: for x in unmade {
        if !round.is_made(x) {
            next.push(*x)?;
        }
    }
    Ok(next)
}

// The candidates that are no functions.
fn settled<'a>(
    alloc: Global,
    before: Before<'_>,
    found: &[Occurrence],
    candidates: &[&'a Label],
) -> Result<Vec<&'a Label>, NoMemory>
    ensures { IfOk result (λ unmade. AreSettled (facts_in before.entry found.now unmade.items) (names_of candidates.now)) }
{
    let mut unmade = copied(alloc, candidates)?;
    'rounds: loop {
        let next = still_unmade(alloc, before, found, &unmade)?;
        if next.len() == unmade.len() {
            return Ok(next);
        }
        unmade = next;
    }
}

/// The labels of the function fields of a definition with this parameter and body: the least ones, over what stands
/// before it.
pub fn function_fields(
    alloc: Global,
    before: Before<'_>,
    pattern: &Pattern,
    body: &Expr,
) -> Result<Seq<Label>, NoMemory>
    ensures { IfOk result (λ labels. AreFieldsOf before.entry (pattern_view pattern.now) (view body.now) labels) }
{
    let fields = candidates(alloc, pattern)?;
    let parameter = parameter(alloc, pattern, &fields)?;
    let mut found = Vec::new(alloc);
    parameter.expr(&[], false, body, &mut found)?;
    let unmade = settled(alloc, before, &found, &parameter.candidates)?;
    settled_labels(alloc, &fields, &unmade)
}

// The labels of the fields that are not unmade.
fn settled_labels(
    alloc: Global,
    fields: &[(&Label, &Label)],
    unmade: &[&Label],
) -> Result<Seq<Label>, NoMemory>
    ensures { IfOk result (λ labels. labels ≡ settled_labels (names_of unmade.now) (pairs_of fields.now)) }
{
    let mut labels = Vec::new(alloc);
    'fields: for field in fields {
        if !is_among(field.1, unmade) {
            labels.push(field.0.dup()?)?;
        }
    }
    Ok(Seq::of(labels))
}

/// What is known of the definitions of a program over these sources, each over those before it.
///
/// # Errors
/// Want of memory.
pub fn known_in(alloc: Global, program: &Program, sources: &[Label]) -> Result<Vec<Known>, NoMemory>
    ensures known { IfOk result (λ known. AreKnown sources.now [] known.items program.now.defs) }
    ensures fields { IfOk result (λ known. AreDistinct program.now.defs
        → AreFunctionFields (fields_in known.items) (decls_of program.now.defs) sources.now) }
{
    let defs = program.defs.slice();
    let mut all: Vec<Known> = Vec::new(alloc);
    'defs: for i in 0..defs.len() {
        let known = known_of(
            alloc,
            Before {
                sources,
                known: &all,
            },
            &defs[i],
        )?;
        all.push(known)?;
    }
    Ok(all)
}

fn known_of(alloc: Global, before: Before<'_>, def: &Decl) -> Result<Known, NoMemory>
    ensures { IfOk result (λ k. IsKnown before.entry k def.now) }
{
    let name = def.name.text.dup()?;
    match &def.param {
        Some(pattern) => Ok(Known {
            name,
            is_function: true,
            fields: function_fields(alloc, before, pattern, &def.body)?,
        }),
        None => Ok(Known {
            name,
            is_function: false,
            fields: Seq::of(Vec::new(alloc)),
        }),
    }
}

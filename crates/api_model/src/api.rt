// A definition.
ghost use Rattle.std.specs.Prelude.{◌≡◌, is_ok, true, ◌⊎◌, ◌<◌, length, map, slice_get, IfErr, IfOk, IfSome, MatchOption, MatchResult, None, OnOk, Some, Ok, Err, if◌then◌else◌};
ghost use Rattle.std.specs.Option.{option_and_then, option_map};
ghost use Rattle.api_members.specs.Models.{schemas_in};
ghost use Rattle.api_resources.specs.Paths.{IsTree};
ghost use Rattle.api_resources.specs.Resources.{path_of};
ghost use Rattle.api_parts.specs.Reading.{ReadsAs};
ghost use Rattle.api_model.specs.Document.{no_parts as none};
ghost use Rattle.api_model.specs.Definition.{document, document_parts, parts_of, stated, text as text_of, text_parts};
ghost use Rattle.api_model.specs.Views.{read_parts};
ghost use Rattle.api_model.specs.Getters.{authorizer_of, entry_of, model_of, of_method, validator_of, whole_of};
ghost use Rattle.api_model.specs.Named.{IsNamed, authorizer_under, model_named, validator_under};
ghost use Rattle.api_resources.specs.Taken.{ReadsUri};
ghost use Rattle.pattern_core.specs.Search.{anchored};
ghost use Rattle.resource_tree.specs.Parameters.{value_at};

use crate::document::{PartsRead, read_document};
use api_parts::{
    ApiCause, ApiFault, Authorizer, GatewayRule, Integration, Method, Parameter, Resource,
    TokenAuthorizer, Uri, Validator, below, no_memory,
};
use api_reading::read_template;
use api_reading::values::fault_here;
use gw_base::{Bytes, Seq, Text};
use json_subset::{Json, JsonFault};
use pattern_core::Pattern;
use resource_tree::Tree;
use schema_draft4::Schema;
use std::alloc::Global;
use std::marker::Model;
use vtl_reader::Template;

/// The most bytes of a definition document.
const LIMIT: usize = 1_048_576;

/// A definition. A contract sees it as its form, text or document, and its source, which fix all its parts.
pub struct Api {
    is_text: bool,
    source: Bytes,
    template: Option<Template>,
    parts: PartsRead,
    resources: u32,
    methods: u32,
    models: u32,
}

impl Model for Api {
    ghost use Rattle.api_model.specs.Definition.{Definition};
    ghost use Rattle.api_model.specs.Kept.{IsKept};

    ghost Value = { Definition };

    ghost view = { λ a. record { is_text = a.is_text; source = a.source } };

    ghost invariant = { λ a. IsKept (record { is_text = a.is_text; source = a.source }) a.template a.parts a.resources a.methods a.models };
}

// Written out, so that a crate above sees one call, and not those of all parts.
impl Drop for Api {
    fn drop(self) {
        let Api {
            is_text: _is_text,
            source: _source,
            template: _template,
            parts: _parts,
            resources: _resources,
            methods: _methods,
            models: _models,
        } = self;
    }
}

// The parts of a document, by its bytes.
#[tactic(auto, unfolding(crate::specs::Definition::document_parts))]
fn read_bytes(alloc: Global, bytes: &[u8]) -> Result<PartsRead, ApiFault>
    ensures read { ReadsAs read_parts (document_parts bytes.now) result }
    ensures tree { IfOk result (λ r. IsTree (map path_of r.resources) r.tree) }
{
    if bytes.len() > LIMIT {
        return Err(fault_here(alloc, ApiCause::TooLong));
    }
    match Json::read(alloc, bytes) {
        Ok(doc) => read_document(alloc, &doc),
        Err(JsonFault::Syntax(at)) => Err(fault_here(alloc, ApiCause::Json(JsonFault::Syntax(at)))),
        Err(JsonFault::Depth(at)) => Err(fault_here(alloc, ApiCause::Json(JsonFault::Depth(at)))),
        Err(JsonFault::Repeated(at)) => Err(fault_here(
            alloc,
            ApiCause::Json(JsonFault::Repeated(at)),
        )),
        Err(JsonFault::NotUtf8(at)) => Err(fault_here(
            alloc,
            ApiCause::Json(JsonFault::NotUtf8(at)),
        )),
        Err(JsonFault::Memory) => Err(no_memory(alloc)),
    }
}

// No parts.
fn no_parts(alloc: Global) -> Result<PartsRead, ApiFault>
    ensures parts { IfOk result (λ r. read_parts r ≡ none) }
    ensures tree { IfOk result (λ r. IsTree (map path_of r.resources) r.tree) }
    ensures memory { IfErr result (λ e. e.cause ≡ ApiCause.Memory) }
{
    let Ok(tree) = Tree::build(alloc, &[]) else {
        return Err(no_memory(alloc));
    };
    Ok(PartsRead {
        models: Seq::new(alloc),
        validators: Seq::new(alloc),
        authorizers: Seq::new(alloc),
        resources: Seq::new(alloc),
        methods: Seq::new(alloc),
        gateway: Seq::new(alloc),
        tree,
    })
}

// How many items there are, as far as they can be numbered.
fn count(alloc: Global, count: usize) -> Result<u32, ApiFault>
    ensures { MatchResult result (λ n. n ≡ count) (λ e. e.cause ≡ ApiCause.Memory) }
{
    match u32::try_from(count) {
        Ok(count) => Ok(count),
        Err(_) => Err(no_memory(alloc)),
    }
}

// A definition with its parts.
#[tactic(auto, unfolding(crate::specs::Definition::parts_of), using(crate::proofs::Kept::parts_are, crate::proofs::Kept::is_accepted))]
fn keep(
    alloc: Global,
    is_text: bool,
    source: Bytes,
    template: Option<Template>,
    parts: PartsRead,
) -> Result<Api, ApiFault>
    requires stated { stated (record { is_text = is_text; source = source }) ≡ Ok (read_parts parts) }
    requires tree { IsTree (map path_of parts.resources) parts.tree }
    requires template { template ≡ (if is_text then Some source else None) }
    ensures { MatchResult result (λ api. api ≡ record { is_text = is_text; source = source }) (λ e. e.cause ≡ ApiCause.Memory) }
{
    let resources = count(alloc, parts.resources.as_slice().len())?;
    let methods = count(alloc, parts.methods.as_slice().len())?;
    let models = count(alloc, parts.models.as_slice().len())?;
    Ok(Api {
        is_text,
        source,
        template,
        parts,
        resources,
        methods,
        models,
    })
}

// The value under this name.
fn named<'a, T>(pairs: &'a [(Text, T)], name: &str) -> Option<&'a T>
    ensures { option_map (λ v. v.now) result ≡ value_at pairs.now name.now }
{
    for pair in pairs {
        if pair.0.as_str() == name {
            return Some(&pair.1);
        }
    }
    None
}

// The template of a text, and no parts.
#[tactic(auto, unfolding(crate::specs::Definition::text_parts))]
fn read_text(alloc: Global, template: &str) -> Result<(Template, PartsRead), ApiFault>
    ensures read { ReadsAs (λ r. read_parts r.1) (text_parts template.now) result }
    ensures template { IfOk result (λ r. r.0 ≡ template.now) }
    ensures tree { IfOk result (λ r. IsTree (map path_of r.1.resources) r.1.tree) }
{
    let read = match read_template(alloc, template) {
        Ok(read) => read,
        Err(fault) => return Err(below(alloc, "text", fault)),
    };
    let parts = no_parts(alloc)?;
    Ok((read, parts))
}

impl Api {
    /// Reads a definition document, of at most 1,048,576 bytes.
    ///
    /// # Errors
    ///
    /// The first fault of the document, and the place of the member that holds it ([`ApiCause`] has the causes). The
    /// members are read in their order, and what an object lacks is told behind them. Where all are of their form, the
    /// first of the faults that wait is told: [`ApiCause::NoSuch`], [`ApiCause::BadMapping`] and [`ApiCause::Tree`].
    /// [`ApiCause::Memory`] where there is no memory.
    pub fn read(alloc: Global, bytes: &[u8]) -> Result<Self, ApiFault>
        // What is stated is read, but for want of memory, and its parts are those that are stated.
        ensures value { IfOk result (λ api. api ≡ document bytes.now) }
        ensures read { OnOk result (stated (document bytes.now) ≡ Ok (parts_of (document bytes.now))) }

        // Each fault is told just where it is stated.
        ensures refused { IfErr result (λ e. (e.cause ≡ ApiCause.Memory) ⊎ (stated (document bytes.now) ≡ Err e)) }
    {
        let parts = read_bytes(alloc, bytes)?;
        let Ok(source) = Vec::from_slice(alloc, bytes) else {
            return Err(no_memory(alloc));
        };
        keep(alloc, false, Bytes::of(source), None, parts)
    }

    /// A template that answers every request.
    ///
    /// # Errors
    ///
    /// The first fault of the template, at `/text`, and [`ApiCause::Memory`] where there is no memory.
    pub fn text(alloc: Global, template: &str) -> Result<Self, ApiFault>
        ensures value { IfOk result (λ api. api ≡ text_of template.now) }
        ensures read { OnOk result (stated (text_of template.now) ≡ Ok (parts_of (text_of template.now))) }
        ensures refused { IfErr result (λ e. (e.cause ≡ ApiCause.Memory) ⊎ (stated (text_of template.now) ≡ Err e)) }
    {
        let (read, parts) = read_text(alloc, template)?;
        let Ok(source) = Vec::from_slice(alloc, template.as_bytes()) else {
            return Err(no_memory(alloc));
        };
        keep(alloc, true, Bytes::of(source), Some(read), parts)
    }

    /// The document, or the template, as it was read.
    pub fn source(&self) -> &[u8]
        ensures { result.now ≡ self.now.source }
    {
        self.source.as_slice()
    }

    /// The template that answers every request, and `None` of a document.
    pub fn text_template(&self) -> Option<&Template>
        ensures { option_map (λ t. t.now) result ≡ (if self.now.is_text then Some self.now.source else None) }
    {
        self.template.as_ref()
    }

    /// Its source states a definition: no fault is found in it. Nothing is done.
    pub fn is_definition(&self)
        ensures { is_ok (stated self.now) ≡ true }
    {
        let _source = &self.source;
    }

    /// How many resources there are.
    pub fn resources(&self) -> u32
        ensures { result ≡ length (parts_of self.now).resources }
    {
        self.resources
    }

    /// How many methods there are, over all resources.
    pub fn methods(&self) -> u32
        ensures { result ≡ length (parts_of self.now).methods }
    {
        self.methods
    }

    /// How many models there are.
    pub fn models(&self) -> u32
        ensures { result ≡ length (parts_of self.now).models }
    {
        self.models
    }

    /// The tree of the resources' paths, in their order.
    pub fn tree(&self) -> &Tree
        ensures { IsTree (map path_of (parts_of self.now).resources) result.now }
    {
        &self.parts.tree
    }

    // The resource of this number.
    fn resource(&self, resource: u32) -> &Resource
        requires { resource < length (parts_of self.now).resources }
        ensures { slice_get (parts_of self.now).resources resource ≡ Some result.now }
    {
        &self.parts.resources.as_slice()[resource as usize]
    }

    // The method of this number.
    fn method(&self, method: u32) -> &Method
        requires { method < length (parts_of self.now).methods }
        ensures { slice_get (parts_of self.now).methods method ≡ Some result.now }
    {
        &self.parts.methods.as_slice()[method as usize]
    }

    /// The path of a resource.
    pub fn path(&self, resource: u32) -> &str
        requires { resource < length (parts_of self.now).resources }
        ensures { option_map path_of (slice_get (parts_of self.now).resources resource) ≡ Some result.now }
    {
        self.resource(resource).path.as_str()
    }

    // The number under a verb, else under `ANY`.
    fn number_under(&self, resource: u32, verb: &str) -> Option<u32>
        requires { resource < length (parts_of self.now).resources }
        ensures { option_map (λ r. entry_of r.verbs verb.now) (slice_get (parts_of self.now).resources resource) ≡ Some result }
    {
        let verbs = self.resource(resource).verbs.as_slice();
        match named(verbs, verb) {
            Some(number) => Some(*number),
            None => named(verbs, "ANY").copied(),
        }
    }

    /// The number of a resource's method of this verb, else of its method of `ANY`; `None` where it has neither.
    pub fn entry(&self, resource: u32, verb: &str) -> Option<u32>
        requires { resource < length (parts_of self.now).resources }
        ensures method { option_map (λ r. entry_of r.verbs verb.now) (slice_get (parts_of self.now).resources resource) ≡ Some result }
        ensures range { IfSome result (λ m. m < length (parts_of self.now).methods) }
    {
        self.number_under(resource, verb)
    }

    /// The verb of a method, or `ANY`.
    pub fn verb(&self, method: u32) -> &str
        requires { method < length (parts_of self.now).methods }
        ensures { option_map (λ m. m.verb) (slice_get (parts_of self.now).methods method) ≡ Some result.now }
    {
        self.method(method).verb.as_str()
    }

    /// Whether a method asks for a key.
    pub fn api_key_required(&self, method: u32) -> bool
        requires { method < length (parts_of self.now).methods }
        ensures { option_map (λ m. m.api_key_required) (slice_get (parts_of self.now).methods method) ≡ Some result }
    {
        self.method(method).api_key_required
    }

    /// The parameters that a method names.
    pub fn parameters(&self, method: u32) -> &[Parameter]
        requires { method < length (parts_of self.now).methods }
        ensures { option_map (λ m. m.parameters) (slice_get (parts_of self.now).methods method) ≡ Some result.now }
    {
        self.method(method).parameters.as_slice()
    }

    /// What a method is answered by.
    pub fn integration(&self, method: u32) -> &Integration
        requires { method < length (parts_of self.now).methods }
        ensures { option_map (λ m. m.integration) (slice_get (parts_of self.now).methods method) ≡ Some result.now }
    {
        &self.method(method).integration
    }

    /// The pieces of the `uri` of a method's integration, and `None` just where its kind is `MOCK`.
    pub fn backend(&self, method: u32) -> Option<&Uri>
        requires { method < length (parts_of self.now).methods }
        ensures value { option_map (λ u. u.now) result ≡ of_method (slice_get (parts_of self.now).methods method) (λ m. m.integration.backend) }
        ensures read { MatchOption (slice_get (parts_of self.now).methods method) ⊥ (λ m. ReadsUri m.integration) }
    {
        self.method(method).integration.backend.as_ref()
    }

    // The authorizer of a method, with its pattern.
    fn token_authorizer(&self, method: u32) -> Option<&TokenAuthorizer>
        requires { method < length (parts_of self.now).methods }
        ensures { option_map (λ a. a.now) result ≡ authorizer_of self.now method }
    {
        match self.method(method).authorizer {
            Some(number) => self.parts.authorizers.as_slice().get(number as usize),
            None => None,
        }
    }

    /// The authorizer of a method: the one that the document names there, and `None` just where it names none.
    pub fn authorizer(&self, method: u32) -> Option<&Authorizer>
        requires { method < length (parts_of self.now).methods }
        ensures value { option_map (λ a. a.now) result ≡ option_map (λ a. a.authorizer) (authorizer_of self.now method) }
        ensures named { IsNamed (λ a. a.now.name) (authorizer_under self.now method) result }
    {
        self.find_authorizer(method)
    }

    // The authorizer of a method, by its number.
    fn find_authorizer(&self, method: u32) -> Option<&Authorizer>
        requires { method < length (parts_of self.now).methods }
        ensures { option_map (λ a. a.now) result ≡ option_map (λ a. a.authorizer) (authorizer_of self.now method) }
    {
        match self.token_authorizer(method) {
            Some(found) => Some(&found.authorizer),
            None => None,
        }
    }

    /// The pattern `P` of a method's authorizer, compiled as `^(?:P)$`: a search finds just the whole tokens that `P` matches.
    pub fn token_pattern(&self, method: u32) -> Option<&Pattern>
        requires { method < length (parts_of self.now).methods }
        ensures value { option_map (λ p. p.now) result ≡ whole_of (authorizer_of self.now method) }

        // It is there just where the authorizer is, with a pattern.
        ensures pattern { option_map (λ p. p.now) result ≡ option_and_then (λ a. option_map anchored a.authorizer.pattern) (authorizer_of self.now method) }
    {
        self.find_pattern(method)
    }

    // The compiled pattern of a method's authorizer.
    fn find_pattern(&self, method: u32) -> Option<&Pattern>
        requires { method < length (parts_of self.now).methods }
        ensures { option_map (λ p. p.now) result ≡ whole_of (authorizer_of self.now method) }
    {
        match self.token_authorizer(method) {
            Some(found) => found.whole.as_ref(),
            None => None,
        }
    }

    /// What of a method's requests is checked: by the validator that the document names there, and `None` just where it
    /// names none.
    pub fn validator(&self, method: u32) -> Option<Validator>
        requires { method < length (parts_of self.now).methods }
        ensures value { result ≡ option_map (λ v. v.1) (validator_of self.now method) }
        ensures named { IsNamed (λ v. v.0) (validator_under self.now method) (validator_of self.now method) }
    {
        self.find_validator(method)
    }

    // The validator of a method, by its number.
    fn find_validator(&self, method: u32) -> Option<Validator>
        requires { method < length (parts_of self.now).methods }
        ensures { result ≡ option_map (λ v. v.1) (validator_of self.now method) }
    {
        let Some(number) = self.method(method).validator else {
            return None;
        };
        match self.parts.validators.as_slice().get(number as usize) {
            Some(found) => Some(found.1),
            None => None,
        }
    }

    /// The model under just this name in a method's `models`, a media type or `$default`: the one that the document names
    /// there, and `None` just where it names none.
    pub fn model(&self, method: u32, media: &str) -> Option<&Schema>
        requires { method < length (parts_of self.now).methods }
        ensures value { option_map (λ s. schemas_in s.now) result ≡ option_map (λ x. x.1) (model_of self.now method media.now) }
        ensures named { IsNamed (λ m. m.0) (model_named self.now method media.now) (model_of self.now method media.now) }
    {
        self.find_model(method, media)
    }

    // The model of a method for a media type, by its number.
    fn find_model(&self, method: u32, media: &str) -> Option<&Schema>
        requires { method < length (parts_of self.now).methods }
        ensures { option_map (λ s. schemas_in s.now) result ≡ option_map (λ x. x.1) (model_of self.now method media.now) }
    {
        let Some(number) = named(self.method(method).models.as_slice(), media) else {
            return None;
        };
        match self.parts.models.as_slice().get(*number as usize) {
            Some(found) => Some(&found.1),
            None => None,
        }
    }

    /// What the gateway's own answers of a kind are, by the kind's name, `DEFAULT_4XX` or `DEFAULT_5XX`.
    pub fn gateway(&self, name: &str) -> Option<&GatewayRule>
        ensures { option_map (λ g. g.now) result ≡ value_at (parts_of self.now).gateway name.now }
    {
        named(self.parts.gateway.as_slice(), name)
    }
}

//! The rows of CREATE, by families of objects.

use crate::forms::Part::{
    self, Concurrently, Flag, IndexName, Maybe, Mods, Object, Path, Rest, Tail, Word,
};
use crate::forms::{Fact, Phrase};
use crate::kinds::StmtKind::{
    self, CreateAccessMethod, CreateAggregate, CreateCast, CreateCollation, CreateConversion,
    CreateDatabase, CreateDomain, CreateEventTrigger, CreateExtension, CreateForeignDataWrapper,
    CreateForeignTable, CreateFunction, CreateGroup, CreateIndex, CreateLanguage,
    CreateMaterializedView, CreateOperator, CreateOperatorClass, CreateOperatorFamily,
    CreatePolicy, CreateProcedure, CreatePropertyGraph, CreatePublication, CreateRole, CreateRule,
    CreateSchema, CreateSequence, CreateServer, CreateStatistics, CreateSubscription, CreateTable,
    CreateTablespace, CreateTextSearchConfiguration, CreateTextSearchDictionary,
    CreateTextSearchParser, CreateTextSearchTemplate, CreateTransform, CreateTrigger, CreateType,
    CreateUser, CreateUserMapping, CreateView,
};
use sql_token::Keyword as K;

/// Tables, indexes, views, sequences.
pub const CREATE_RELATION: [(StmtKind, &[Part], &[Part]); 8] = [
    (
        CreateTable,
        &[Mods, Object(K::TABLE)],
        &[Maybe(Phrase::IfNotExists, Fact::Guarded), Path, Rest],
    ),
    (
        CreateIndex,
        &[Flag(K::UNIQUE, Fact::Unique), Object(K::INDEX)],
        &[
            Concurrently,
            IndexName,
            Word(K::ON),
            Flag(K::ONLY, Fact::Nothing),
            Path,
            Rest,
        ],
    ),
    (
        CreateView,
        &[Mods, Flag(K::RECURSIVE, Fact::Nothing), Word(K::VIEW)],
        &[Path, Rest],
    ),
    (
        CreateSequence,
        &[Mods, Word(K::SEQUENCE)],
        &[Maybe(Phrase::IfNotExists, Fact::Guarded), Path, Rest],
    ),
    (
        CreateMaterializedView,
        &[Word(K::MATERIALIZED), Word(K::VIEW)],
        &[Maybe(Phrase::IfNotExists, Fact::Guarded), Path, Rest],
    ),
    (
        CreateForeignTable,
        &[Word(K::FOREIGN), Object(K::TABLE)],
        &[Maybe(Phrase::IfNotExists, Fact::Guarded), Path, Rest],
    ),
    (
        CreateForeignDataWrapper,
        &[Word(K::FOREIGN), Word(K::DATA), Word(K::WRAPPER)],
        &[Rest],
    ),
    (
        CreatePropertyGraph,
        &[Mods, Word(K::PROPERTY), Word(K::GRAPH)],
        &[Rest],
    ),
];

/// Functions, triggers, rules, policies, languages, and views after OR REPLACE.
pub const CREATE_CODE: [(StmtKind, &[Part], &[Part]); 10] = [
    (
        CreateFunction,
        &[Maybe(Phrase::OrReplace, Fact::Replace), Word(K::FUNCTION)],
        &[Rest],
    ),
    (
        CreateView,
        &[
            Maybe(Phrase::OrReplace, Fact::Replace),
            Mods,
            Flag(K::RECURSIVE, Fact::Nothing),
            Word(K::VIEW),
        ],
        &[Path, Rest],
    ),
    (
        CreateTrigger,
        &[
            Maybe(Phrase::OrReplace, Fact::Replace),
            Flag(K::CONSTRAINT, Fact::Nothing),
            Word(K::TRIGGER),
        ],
        &[Rest],
    ),
    (
        CreateProcedure,
        &[Maybe(Phrase::OrReplace, Fact::Replace), Word(K::PROCEDURE)],
        &[Rest],
    ),
    (CreatePolicy, &[Word(K::POLICY)], &[Rest]),
    (
        CreateAggregate,
        &[Maybe(Phrase::OrReplace, Fact::Replace), Word(K::AGGREGATE)],
        &[Rest],
    ),
    (
        CreateRule,
        &[Maybe(Phrase::OrReplace, Fact::Replace), Word(K::RULE)],
        &[Rest],
    ),
    (
        CreateEventTrigger,
        &[Word(K::EVENT), Word(K::TRIGGER)],
        &[Rest],
    ),
    (
        CreateTransform,
        &[Maybe(Phrase::OrReplace, Fact::Replace), Word(K::TRANSFORM)],
        &[Rest],
    ),
    (
        CreateLanguage,
        &[
            Maybe(Phrase::OrReplace, Fact::Replace),
            Flag(K::TRUSTED, Fact::Nothing),
            Flag(K::PROCEDURAL, Fact::Nothing),
            Word(K::LANGUAGE),
        ],
        &[Rest],
    ),
];

/// Types, domains, casts, operators.
pub const CREATE_DATA_TYPE: [(StmtKind, &[Part], &[Part]); 7] = [
    (CreateType, &[Word(K::TYPE)], &[Path, Rest]),
    (
        CreateDomain,
        &[Word(K::DOMAIN)],
        &[Path, Flag(K::AS, Fact::Nothing), Tail],
    ),
    (CreateCast, &[Word(K::CAST)], &[Rest]),
    (CreateCollation, &[Word(K::COLLATION)], &[Rest]),
    (
        CreateOperatorClass,
        &[Word(K::OPERATOR), Word(K::CLASS)],
        &[Rest],
    ),
    (
        CreateOperatorFamily,
        &[Word(K::OPERATOR), Word(K::FAMILY)],
        &[Rest],
    ),
    (CreateOperator, &[Word(K::OPERATOR)], &[Rest]),
];

/// Roles, databases, servers, publications.
pub const CREATE_SERVICE: [(StmtKind, &[Part], &[Part]); 9] = [
    (CreateRole, &[Word(K::ROLE)], &[Rest]),
    (
        CreateUserMapping,
        &[Word(K::USER), Word(K::MAPPING)],
        &[Rest],
    ),
    (CreateUser, &[Word(K::USER)], &[Rest]),
    (CreateGroup, &[Word(K::GROUP)], &[Rest]),
    (CreateDatabase, &[Word(K::DATABASE)], &[Rest]),
    (CreateTablespace, &[Word(K::TABLESPACE)], &[Rest]),
    (CreateServer, &[Word(K::SERVER)], &[Rest]),
    (CreatePublication, &[Word(K::PUBLICATION)], &[Rest]),
    (CreateSubscription, &[Word(K::SUBSCRIPTION)], &[Rest]),
];

/// All else.
pub const CREATE_OTHER: [(StmtKind, &[Part], &[Part]); 9] = [
    (CreateSchema, &[Word(K::SCHEMA)], &[Rest]),
    (CreateExtension, &[Word(K::EXTENSION)], &[Rest]),
    (CreateStatistics, &[Word(K::STATISTICS)], &[Rest]),
    (
        CreateConversion,
        &[Flag(K::DEFAULT, Fact::Nothing), Word(K::CONVERSION)],
        &[Rest],
    ),
    (
        CreateAccessMethod,
        &[Word(K::ACCESS), Word(K::METHOD)],
        &[Rest],
    ),
    (
        CreateTextSearchConfiguration,
        &[Word(K::TEXT), Word(K::SEARCH), Word(K::CONFIGURATION)],
        &[Rest],
    ),
    (
        CreateTextSearchDictionary,
        &[Word(K::TEXT), Word(K::SEARCH), Word(K::DICTIONARY)],
        &[Rest],
    ),
    (
        CreateTextSearchParser,
        &[Word(K::TEXT), Word(K::SEARCH), Word(K::PARSER)],
        &[Rest],
    ),
    (
        CreateTextSearchTemplate,
        &[Word(K::TEXT), Word(K::SEARCH), Word(K::TEMPLATE)],
        &[Rest],
    ),
];

//! The rows of ALTER, by families of objects. What such a row leaves open are the actions.

use crate::forms::Part::{
    self, Flag, Maybe, MaybeList, Name, Path, Privileges, Rest, Star, Tail, Word,
};
use crate::forms::{Fact, Phrase};
use crate::kinds::StmtKind::{
    self, AlterAggregate, AlterCollation, AlterConversion, AlterDatabase, AlterDefaultPrivileges,
    AlterDomain, AlterEventTrigger, AlterExtension, AlterForeignDataWrapper, AlterForeignTable,
    AlterFunction, AlterGroup, AlterIndex, AlterLanguage, AlterLargeObject, AlterMaterializedView,
    AlterOperator, AlterOperatorClass, AlterOperatorFamily, AlterPolicy, AlterProcedure,
    AlterPropertyGraph, AlterPublication, AlterRole, AlterRoutine, AlterRule, AlterSchema,
    AlterSequence, AlterServer, AlterStatistics, AlterSubscription, AlterSystem, AlterTable,
    AlterTablespace, AlterTextSearchConfiguration, AlterTextSearchDictionary,
    AlterTextSearchParser, AlterTextSearchTemplate, AlterTrigger, AlterType, AlterUser,
    AlterUserMapping, AlterView,
};
use sql_token::Keyword as K;

/// Tables, indexes, views, sequences.
pub const ALTER_RELATION: [(StmtKind, &[Part], &[Part]); 8] = [
    (
        AlterTable,
        &[Word(K::TABLE)],
        &[
            Maybe(Phrase::IfExists, Fact::Guarded),
            Flag(K::ONLY, Fact::Nothing),
            Path,
            Star,
            Tail,
        ],
    ),
    (
        AlterIndex,
        &[Word(K::INDEX)],
        &[Maybe(Phrase::IfExists, Fact::Guarded), Path, Tail],
    ),
    (
        AlterView,
        &[Word(K::VIEW)],
        &[Maybe(Phrase::IfExists, Fact::Guarded), Path, Tail],
    ),
    (
        AlterSequence,
        &[Word(K::SEQUENCE)],
        &[Maybe(Phrase::IfExists, Fact::Guarded), Path, Tail],
    ),
    (
        AlterMaterializedView,
        &[Word(K::MATERIALIZED), Word(K::VIEW)],
        &[
            Maybe(Phrase::IfExists, Fact::Guarded),
            Flag(K::ONLY, Fact::Nothing),
            Path,
            Star,
            Tail,
        ],
    ),
    (
        AlterForeignTable,
        &[Word(K::FOREIGN), Word(K::TABLE)],
        &[
            Maybe(Phrase::IfExists, Fact::Guarded),
            Flag(K::ONLY, Fact::Nothing),
            Path,
            Star,
            Tail,
        ],
    ),
    (
        AlterForeignDataWrapper,
        &[Word(K::FOREIGN), Word(K::DATA), Word(K::WRAPPER)],
        &[Rest],
    ),
    (
        AlterPropertyGraph,
        &[Word(K::PROPERTY), Word(K::GRAPH)],
        &[Rest],
    ),
];

/// Functions, triggers, rules, policies, languages.
pub const ALTER_CODE: [(StmtKind, &[Part], &[Part]); 9] = [
    (
        AlterFunction,
        &[Word(K::FUNCTION)],
        &[Path, MaybeList, Tail],
    ),
    (
        AlterPolicy,
        &[Word(K::POLICY)],
        &[Name, Word(K::ON), Path, Tail],
    ),
    (
        AlterTrigger,
        &[Word(K::TRIGGER)],
        &[Name, Word(K::ON), Path, Tail],
    ),
    (
        AlterProcedure,
        &[Word(K::PROCEDURE)],
        &[Path, MaybeList, Tail],
    ),
    (AlterRoutine, &[Word(K::ROUTINE)], &[Path, MaybeList, Tail]),
    (
        AlterAggregate,
        &[Word(K::AGGREGATE)],
        &[Path, MaybeList, Tail],
    ),
    (AlterRule, &[Word(K::RULE)], &[Rest]),
    (
        AlterEventTrigger,
        &[Word(K::EVENT), Word(K::TRIGGER)],
        &[Rest],
    ),
    (
        AlterLanguage,
        &[Flag(K::PROCEDURAL, Fact::Nothing), Word(K::LANGUAGE)],
        &[Rest],
    ),
];

/// Types, domains, collations, operators.
pub const ALTER_DATA_TYPE: [(StmtKind, &[Part], &[Part]); 6] = [
    (
        AlterType,
        &[Word(K::TYPE)],
        &[Maybe(Phrase::IfExists, Fact::Guarded), Path, Tail],
    ),
    (
        AlterDomain,
        &[Word(K::DOMAIN)],
        &[Maybe(Phrase::IfExists, Fact::Guarded), Path, Tail],
    ),
    (AlterCollation, &[Word(K::COLLATION)], &[Rest]),
    (
        AlterOperatorClass,
        &[Word(K::OPERATOR), Word(K::CLASS)],
        &[Rest],
    ),
    (
        AlterOperatorFamily,
        &[Word(K::OPERATOR), Word(K::FAMILY)],
        &[Rest],
    ),
    (AlterOperator, &[Word(K::OPERATOR)], &[Rest]),
];

/// Roles, databases, servers, publications.
pub const ALTER_SERVICE: [(StmtKind, &[Part], &[Part]); 10] = [
    (AlterRole, &[Word(K::ROLE)], &[Name, Tail]),
    (
        AlterUserMapping,
        &[Word(K::USER), Word(K::MAPPING)],
        &[Rest],
    ),
    (AlterUser, &[Word(K::USER)], &[Name, Tail]),
    (AlterDatabase, &[Word(K::DATABASE)], &[Name, Tail]),
    (AlterPublication, &[Word(K::PUBLICATION)], &[Name, Tail]),
    (AlterSubscription, &[Word(K::SUBSCRIPTION)], &[Rest]),
    (AlterGroup, &[Word(K::GROUP)], &[Name, Tail]),
    (AlterSystem, &[Word(K::SYSTEM)], &[Tail]),
    (AlterTablespace, &[Word(K::TABLESPACE)], &[Rest]),
    (AlterServer, &[Word(K::SERVER)], &[Rest]),
];

/// All else.
pub const ALTER_OTHER: [(StmtKind, &[Part], &[Part]); 10] = [
    (AlterSchema, &[Word(K::SCHEMA)], &[Name, Tail]),
    (AlterExtension, &[Word(K::EXTENSION)], &[Name, Tail]),
    (
        AlterDefaultPrivileges,
        &[Word(K::DEFAULT), Word(K::PRIVILEGES)],
        &[Privileges, Rest],
    ),
    (AlterStatistics, &[Word(K::STATISTICS)], &[Rest]),
    (AlterConversion, &[Word(K::CONVERSION)], &[Rest]),
    (
        AlterLargeObject,
        &[Word(K::LARGE), Word(K::OBJECT)],
        &[Rest],
    ),
    (
        AlterTextSearchConfiguration,
        &[Word(K::TEXT), Word(K::SEARCH), Word(K::CONFIGURATION)],
        &[Rest],
    ),
    (
        AlterTextSearchDictionary,
        &[Word(K::TEXT), Word(K::SEARCH), Word(K::DICTIONARY)],
        &[Rest],
    ),
    (
        AlterTextSearchParser,
        &[Word(K::TEXT), Word(K::SEARCH), Word(K::PARSER)],
        &[Rest],
    ),
    (
        AlterTextSearchTemplate,
        &[Word(K::TEXT), Word(K::SEARCH), Word(K::TEMPLATE)],
        &[Rest],
    ),
];

//! The rows of DROP, by families of objects.

use crate::forms::Part::{self, Concurrently, Flag, Maybe, Object, Path, Rest, Word};
use crate::forms::{Fact, Phrase};
use crate::kinds::StmtKind::{
    self, DropAccessMethod, DropAggregate, DropCast, DropCollation, DropConversion, DropDatabase,
    DropDomain, DropEventTrigger, DropExtension, DropForeignDataWrapper, DropForeignTable,
    DropFunction, DropGroup, DropIndex, DropLanguage, DropMaterializedView, DropOperator,
    DropOperatorClass, DropOperatorFamily, DropOwned, DropPolicy, DropProcedure, DropPropertyGraph,
    DropPublication, DropRole, DropRoutine, DropRule, DropSchema, DropSequence, DropServer,
    DropStatistics, DropSubscription, DropTable, DropTablespace, DropTextSearchConfig,
    DropTextSearchDict, DropTextSearchParser, DropTextSearchTemplate, DropTransform, DropTrigger,
    DropType, DropUser, DropUserMapping, DropView,
};
use sql_token::Keyword as K;

/// Tables, indexes, views, sequences.
pub const DROP_RELATION: [(StmtKind, &[Part], &[Part]); 8] = [
    (
        DropTable,
        &[Object(K::TABLE)],
        &[Maybe(Phrase::IfExists, Fact::Guarded), Path, Rest],
    ),
    (
        DropIndex,
        &[Object(K::INDEX)],
        &[
            Concurrently,
            Maybe(Phrase::IfExists, Fact::Guarded),
            Path,
            Rest,
        ],
    ),
    (DropView, &[Word(K::VIEW)], &[Rest]),
    (DropSequence, &[Word(K::SEQUENCE)], &[Rest]),
    (
        DropMaterializedView,
        &[Word(K::MATERIALIZED), Word(K::VIEW)],
        &[Rest],
    ),
    (
        DropForeignTable,
        &[Word(K::FOREIGN), Word(K::TABLE)],
        &[Rest],
    ),
    (
        DropForeignDataWrapper,
        &[Word(K::FOREIGN), Word(K::DATA), Word(K::WRAPPER)],
        &[Rest],
    ),
    (
        DropPropertyGraph,
        &[Word(K::PROPERTY), Word(K::GRAPH)],
        &[Rest],
    ),
];

/// Functions, triggers, rules, policies, languages.
pub const DROP_CODE: [(StmtKind, &[Part], &[Part]); 10] = [
    (DropFunction, &[Word(K::FUNCTION)], &[Rest]),
    (DropTrigger, &[Word(K::TRIGGER)], &[Rest]),
    (DropPolicy, &[Word(K::POLICY)], &[Rest]),
    (DropProcedure, &[Word(K::PROCEDURE)], &[Rest]),
    (DropRoutine, &[Word(K::ROUTINE)], &[Rest]),
    (DropAggregate, &[Word(K::AGGREGATE)], &[Rest]),
    (DropRule, &[Word(K::RULE)], &[Rest]),
    (
        DropEventTrigger,
        &[Word(K::EVENT), Word(K::TRIGGER)],
        &[Rest],
    ),
    (DropTransform, &[Word(K::TRANSFORM)], &[Rest]),
    (
        DropLanguage,
        &[Flag(K::PROCEDURAL, Fact::Nothing), Word(K::LANGUAGE)],
        &[Rest],
    ),
];

/// Types, domains, casts, operators.
pub const DROP_DATA_TYPE: [(StmtKind, &[Part], &[Part]); 7] = [
    (
        DropType,
        &[Object(K::TYPE)],
        &[Maybe(Phrase::IfExists, Fact::Guarded), Path, Rest],
    ),
    (DropDomain, &[Word(K::DOMAIN)], &[Rest]),
    (DropCast, &[Word(K::CAST)], &[Rest]),
    (DropCollation, &[Word(K::COLLATION)], &[Rest]),
    (
        DropOperatorClass,
        &[Word(K::OPERATOR), Word(K::CLASS)],
        &[Rest],
    ),
    (
        DropOperatorFamily,
        &[Word(K::OPERATOR), Word(K::FAMILY)],
        &[Rest],
    ),
    (DropOperator, &[Word(K::OPERATOR)], &[Rest]),
];

/// Roles, databases, servers, publications.
pub const DROP_SERVICE: [(StmtKind, &[Part], &[Part]); 9] = [
    (DropRole, &[Word(K::ROLE)], &[Rest]),
    (DropUserMapping, &[Word(K::USER), Word(K::MAPPING)], &[Rest]),
    (DropUser, &[Word(K::USER)], &[Rest]),
    (DropGroup, &[Word(K::GROUP)], &[Rest]),
    (DropDatabase, &[Word(K::DATABASE)], &[Rest]),
    (DropTablespace, &[Word(K::TABLESPACE)], &[Rest]),
    (DropServer, &[Word(K::SERVER)], &[Rest]),
    (DropPublication, &[Word(K::PUBLICATION)], &[Rest]),
    (DropSubscription, &[Word(K::SUBSCRIPTION)], &[Rest]),
];

/// All else.
pub const DROP_OTHER: [(StmtKind, &[Part], &[Part]); 10] = [
    (DropSchema, &[Word(K::SCHEMA)], &[Rest]),
    (DropExtension, &[Word(K::EXTENSION)], &[Rest]),
    (DropOwned, &[Word(K::OWNED)], &[Rest]),
    (DropStatistics, &[Word(K::STATISTICS)], &[Rest]),
    (DropConversion, &[Word(K::CONVERSION)], &[Rest]),
    (
        DropAccessMethod,
        &[Word(K::ACCESS), Word(K::METHOD)],
        &[Rest],
    ),
    (
        DropTextSearchConfig,
        &[Word(K::TEXT), Word(K::SEARCH), Word(K::CONFIGURATION)],
        &[Rest],
    ),
    (
        DropTextSearchDict,
        &[Word(K::TEXT), Word(K::SEARCH), Word(K::DICTIONARY)],
        &[Rest],
    ),
    (
        DropTextSearchParser,
        &[Word(K::TEXT), Word(K::SEARCH), Word(K::PARSER)],
        &[Rest],
    ),
    (
        DropTextSearchTemplate,
        &[Word(K::TEXT), Word(K::SEARCH), Word(K::TEMPLATE)],
        &[Rest],
    ),
];

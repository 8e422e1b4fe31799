//! What each action of the grammar builds. It is written by `tools/table.py`, and is that of `specs/Actions`.

use crate::build::{Action, ExprAction, QueryAction, StatementAction, TokenAction};
use crate::tree::{Aggregate, Comparison, Operator};

/// By the number of the action, from the first.
pub(crate) static ACTIONS: [Action; 90] = [
    // query!
    Action::Query(QueryAction::Query),
    // name!
    Action::Token(TokenAction::Name),
    // literal!
    Action::Token(TokenAction::Literal),
    // key_name!
    Action::Query(QueryAction::KeyName(false)),
    // key_name_down!
    Action::Query(QueryAction::KeyName(true)),
    // key_number!
    Action::Query(QueryAction::KeyNumber(false)),
    // key_number_down!
    Action::Query(QueryAction::KeyNumber(true)),
    // limit!
    Action::Query(QueryAction::Limit),
    // offset!
    Action::Query(QueryAction::Offset),
    // selects!
    Action::Query(QueryAction::Selects),
    // union!
    Action::Query(QueryAction::Union(false)),
    // union_all!
    Action::Query(QueryAction::Union(true)),
    // select!
    Action::Query(QueryAction::Select),
    // distinct!
    Action::Query(QueryAction::Distinct),
    // all!
    Action::Query(QueryAction::All),
    // plain!
    Action::Token(TokenAction::Plain),
    // operand!
    Action::Expr(ExprAction::Column),
    // all_of!
    Action::Query(QueryAction::AllOf),
    // item_as!
    Action::Query(QueryAction::ItemAs),
    // item!
    Action::Query(QueryAction::Item),
    // from!
    Action::Query(QueryAction::From),
    // inner!
    Action::Query(QueryAction::Inner),
    // left!
    Action::Query(QueryAction::Left),
    // cross!
    Action::Query(QueryAction::Cross),
    // derived!
    Action::Query(QueryAction::Derived),
    // table_as!
    Action::Query(QueryAction::TableAs),
    // table!
    Action::Query(QueryAction::Table),
    // relation_of!
    Action::Token(TokenAction::RelationOf),
    // relation!
    Action::Token(TokenAction::Relation),
    // where!
    Action::Query(QueryAction::Where),
    // group_key!
    Action::Query(QueryAction::GroupKey),
    // having!
    Action::Query(QueryAction::Having),
    // in_schema!
    Action::Token(TokenAction::InSchema),
    // of!
    Action::Token(TokenAction::Of),
    // run!
    Action::Statement(StatementAction::Query),
    // explain!
    Action::Statement(StatementAction::Explain),
    // start!
    Action::Statement(StatementAction::Start),
    // commit!
    Action::Statement(StatementAction::Commit),
    // rollback!
    Action::Statement(StatementAction::Rollback),
    // names!
    Action::Statement(StatementAction::Names),
    // add_name!
    Action::Statement(StatementAction::AddName),
    // insert_values!
    Action::Statement(StatementAction::InsertValues),
    // insert_query!
    Action::Statement(StatementAction::InsertQuery),
    // assignments!
    Action::Statement(StatementAction::Assignments),
    // assign!
    Action::Statement(StatementAction::Assign),
    // update_where!
    Action::Statement(StatementAction::UpdateWhere),
    // update!
    Action::Statement(StatementAction::Update),
    // delete_where!
    Action::Statement(StatementAction::DeleteWhere),
    // delete!
    Action::Statement(StatementAction::Delete),
    // exec!
    Action::Statement(StatementAction::Exec),
    // list!
    Action::Expr(ExprAction::List),
    // add!
    Action::Expr(ExprAction::Add),
    // links!
    Action::Expr(ExprAction::Links),
    // chain!
    Action::Expr(ExprAction::Chain),
    // place!
    Action::Token(TokenAction::Place),
    // or!
    Action::Expr(ExprAction::Link(Operator::Or)),
    // and!
    Action::Expr(ExprAction::Link(Operator::And)),
    // not!
    Action::Expr(ExprAction::Not),
    // equal!
    Action::Expr(ExprAction::Compare(Comparison::Equal)),
    // not_equal!
    Action::Expr(ExprAction::Compare(Comparison::NotEqual)),
    // less!
    Action::Expr(ExprAction::Compare(Comparison::Less)),
    // at_most!
    Action::Expr(ExprAction::Compare(Comparison::AtMost)),
    // greater!
    Action::Expr(ExprAction::Compare(Comparison::Greater)),
    // at_least!
    Action::Expr(ExprAction::Compare(Comparison::AtLeast)),
    // in!
    Action::Expr(ExprAction::In(false)),
    // like!
    Action::Expr(ExprAction::Like(false)),
    // between!
    Action::Expr(ExprAction::Between(false)),
    // is_null!
    Action::Expr(ExprAction::IsNull(false)),
    // is_not_null!
    Action::Expr(ExprAction::IsNull(true)),
    // not_in!
    Action::Expr(ExprAction::In(true)),
    // not_like!
    Action::Expr(ExprAction::Like(true)),
    // not_between!
    Action::Expr(ExprAction::Between(true)),
    // concat!
    Action::Expr(ExprAction::Link(Operator::Concat)),
    // plus!
    Action::Expr(ExprAction::Link(Operator::Add)),
    // minus!
    Action::Expr(ExprAction::Link(Operator::Subtract)),
    // times!
    Action::Expr(ExprAction::Link(Operator::Multiply)),
    // negative!
    Action::Token(TokenAction::Negative),
    // constant!
    Action::Expr(ExprAction::Constant),
    // negate!
    Action::Expr(ExprAction::Negate),
    // parens!
    Action::Expr(ExprAction::Parens),
    // sum!
    Action::Expr(ExprAction::Aggregate(Aggregate::Sum)),
    // min!
    Action::Expr(ExprAction::Aggregate(Aggregate::Min)),
    // max!
    Action::Expr(ExprAction::Aggregate(Aggregate::Max)),
    // coalesce!
    Action::Expr(ExprAction::Coalesce),
    // arms!
    Action::Expr(ExprAction::Arms),
    // count_all!
    Action::Expr(ExprAction::CountAll),
    // count!
    Action::Expr(ExprAction::Aggregate(Aggregate::Count)),
    // arm!
    Action::Expr(ExprAction::Arm),
    // case!
    Action::Expr(ExprAction::Case),
    // case_else!
    Action::Expr(ExprAction::CaseElse),
];

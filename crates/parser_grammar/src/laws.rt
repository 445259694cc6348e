//! Laws of the definitions, proved.

ghost use Rattle.parser_grammar.specs.Laws.{SpelledFilesAreRead, ReadFilesAreSpelled};
ghost use Rattle.parser_grammar.specs.Laws.{TokensSpellOneFile};
ghost use Rattle.parser_grammar.specs.Laws.{SpelledExpressionsAreRead, ReadExpressionsAreSpelled};
ghost use Rattle.parser_grammar.specs.Laws.{TokensSpellOneExpression, SpelledSequencesAreRead};
ghost use Rattle.parser_grammar.specs.Laws.{ReadSequencesAreSpelled, SpelledPropertiesAreRead};
ghost use Rattle.parser_grammar.specs.Laws.{ReadPropertiesAreSpelled};

/// Reading from the left finds the tree that the grammar's rules say, and nothing else: for files,
/// expressions, sequences and properties. So tokens spell at most one file.
pub fn grammar_law()
    ensures spelled_file { SpelledFilesAreRead }
    ensures read_file { ReadFilesAreSpelled }
    ensures one_file { TokensSpellOneFile }
    ensures spelled_expression { SpelledExpressionsAreRead }
    ensures read_expression { ReadExpressionsAreSpelled }
    ensures one_expression { TokensSpellOneExpression }
    ensures spelled_sequence { SpelledSequencesAreRead }
    ensures read_sequence { ReadSequencesAreSpelled }
    ensures spelled_property { SpelledPropertiesAreRead }
    ensures read_property { ReadPropertiesAreSpelled }
{}

//! A router's text on a small example, as it is printed.
ghost use Rattle.std.specs.Prelude.{◌≡◌, [], ◌∷◌};
ghost use Rattle.ixp_lang.specs.Trees.{filter_item, stmts};
ghost use Rattle.ixp_print.specs.Texts.{config_text};
ghost use Rattle.ixp_compile.specs.Example.{
  example_allowed,
  example_covered,
  example_header,
  example_inputs,
  foot_lines,
  head_lines,
  part_lines,
  text_of,
};
ghost use Rattle.ixp_compile.specs.Fragment.{fragment, in_body, in_name};
ghost use Rattle.ixp_compile.specs.Generated.{allowed_set, covered_set, footer};
ghost use Rattle.ixp_compile.specs.Header.{header};
ghost use Rattle.ixp_compile.specs.PlainExample.{
  plain_head_lines,
  plain_header,
  plain_inputs,
  plain_part_lines,
  unlisted_inputs,
  unlisted_lines,
};

/// The text of the example is these lines.
pub fn example_is_printed()
    ensures head { config_text (header example_header) ≡ text_of head_lines }
    ensures part { config_text (fragment example_inputs example_allowed example_covered)
        ≡ text_of part_lines }
    ensures foot { config_text footer ≡ text_of foot_lines }
{}

/// What is left out where lists are empty, numbers don't fit or a member isn't held to its lists.
pub fn plain_example_is_printed()
    ensures head { config_text (header plain_header) ≡ text_of plain_head_lines }
    ensures part { config_text (fragment plain_inputs [] []) ≡ text_of plain_part_lines }
    ensures unlisted { config_text (filter_item (in_name 1) (stmts (in_body unlisted_inputs [] [])) ∷ [])
        ≡ text_of unlisted_lines }
{}
